// Frames. A link may lose, repeat, reorder and cut them, so each names its place and its length,
// and has a checksum of its own (PostgreSQL's walsender.c sends stretches of the log over a
// connection that keeps them whole and in order).
ghost use Rattle.std.specs.Prelude.{◌≡◌, ◌+◌, ◌*◌, ◌%◌, ◌^◌, ◌<◌, ◌≤◌, ◌↔◌, All, IfNone, IfSome, IsTrue, length};
ghost use Rattle.flush_core.specs.Settled.{cleared};
ghost use Rattle.wal_stream.specs.Frame.{EndsInPage, IsFrame, SentPage, frame_bytes, frame_fields, frame_head, sent_upto};

use byte_position::{Geometry, PAGE_SIZE, Page, WORD};
use std::marker::Model;
use wal_crc32c::Crc;
use wal_spelling::numbers::u64_at;
use wal_types::Lsn;

/// The bytes of a frame.
pub const FRAME_SIZE: usize = 8224;

const MAGIC: [u8; 4] = *b"WALF";

// The bytes before the page; the checksum is of what stands behind it.
const HEAD_SIZE: usize = 32;

// Where a frame's head names its page's address.
const FRAME_ADDRESS_AT: usize = 8;

// Where it names up to where the page is sent.
const FRAME_UPTO_AT: usize = 16;

/// A page that came in a frame. Contracts see it as a `SentPage`, whose words below `upto` are
/// sent, and behind them are zeros.
#[derive(Debug, Drop)]
pub struct FramedPage<'a> {
    page: u64,
    upto: Lsn,
    bytes: &'a Page,
}

impl<'a> Model for FramedPage<'a> {
    ghost use Rattle.wal_stream.specs.Frame.{SentPage, IsSentPage};

    ghost Value = { SentPage };

    ghost view = { λ f. record { page = f.page; upto = f.upto.0; bytes = f.bytes.now } };

    ghost invariant = { λ f. IsSentPage (record {
      page = f.page;
      upto = f.upto.0;
      bytes = f.bytes.now;
    }) };
}

impl<'a> FramedPage<'a> {
    /// The page, by its number from the log's address 0.
    pub fn page(&self) -> u64
        ensures { result ≡ self.now.page }
    {
        self.page
    }

    /// Up to where it is sent.
    pub fn upto(&self) -> Lsn
        ensures { result.0 ≡ self.now.upto }
    {
        self.upto
    }

    /// Its bytes: zeros from there on.
    pub fn bytes(&self) -> &'a Page
        ensures { result.now ≡ self.now.bytes }
    {
        self.bytes
    }

    /// Reads a frame. None where the bytes are no frame of this segment size: too many or too few,
    /// another checksum, a field that is not as `frame` makes it.
    pub fn read(geometry: Geometry, bytes: &'a [u8]) -> Option<FramedPage<'a>>
        ensures frame { IfSome result (λ sent. IsFrame geometry bytes.now sent) }
        ensures none { IfNone result ((sent : SentPage) → IsFrame geometry bytes.now sent → ⊥) }
    {
        let Some((head, rest)) = bytes.split_first_chunk::<32>() else {
            return None;
        };
        let Some(page_bytes) = rest.as_array::<8192>() else {
            return None;
        };
        let address = u64_at(head, FRAME_ADDRESS_AT);
        let upto = u64_at(head, FRAME_UPTO_AT);
        if !ends_in_page(address, upto) {
            return None;
        }
        let page = address / PAGE_SIZE;
        let sent = (upto - address) as usize;
        if !are_zeros(&page_bytes[sent..]) {
            return None;
        }
        if *head != head_of(geometry, page, Lsn(upto), page_bytes) {
            return None;
        }
        Some(FramedPage {
            page,
            upto: Lsn(upto),
            bytes: page_bytes,
        })
    }
}

/// Makes the frame of a page that is sent up to an address: the end of one of its words. What
/// stands in the page behind it is not sent.
pub fn frame(geometry: Geometry, page: u64, upto: Lsn, bytes: &Page, into: &mut [u8; FRAME_SIZE])
    requires { EndsInPage page upto.0 }
    ensures { into.new ≡ frame_bytes geometry (sent_upto page upto.0 bytes.now) }
{
    let sent = (upto.0 - page * PAGE_SIZE) as usize;
    let (head, rest) = into.split_at_mut(HEAD_SIZE);
    put_front(rest, bytes, sent);
    head.copy_from_slice(&head_of(geometry, page, upto, rest));
}

// Puts a page's first bytes, and zeros behind.
fn put_front(into: &mut [u8], bytes: &Page, count: usize)
    requires room { length into.old ≡ 8192 }
    requires count { count ≤ 8192 }
    ensures { into.new ≡ cleared count bytes.now }
{
    into.copy_from_slice(bytes);
    into[count..].fill(0);
}

// What stands before the page.
#[tactic(auto, unfolding(crate::specs::Frame::frame_head))]
fn head_of(geometry: Geometry, page: u64, upto: Lsn, bytes: &[u8]) -> [u8; HEAD_SIZE]
    requires { page * 8192 < 2 ^ 64 }
    ensures { result ≡ frame_head geometry page upto.0 bytes.now }
{
    let fields = fields_of(geometry, page, upto);
    let mut crc = Crc::new();
    crc.update(&fields);
    crc.update(bytes);
    let mut head = [0; HEAD_SIZE];
    head[..4].copy_from_slice(&MAGIC);
    head[4..8].copy_from_slice(&crc.value().to_le_bytes());
    head[8..].copy_from_slice(&fields);
    head
}

fn fields_of(geometry: Geometry, page: u64, upto: Lsn) -> [u8; 24]
    requires { page * 8192 < 2 ^ 64 }
    ensures { result ≡ frame_fields geometry page upto.0 }
{
    let mut fields = [0; 24];
    fields[..8].copy_from_slice(&(page * PAGE_SIZE).to_le_bytes());
    fields[8..16].copy_from_slice(&upto.0.to_le_bytes());
    fields[16..20].copy_from_slice(&(geometry.segment_size() as u32).to_le_bytes());
    fields
}

// Whether the page of an address may be sent up to another one.
fn ends_in_page(address: u64, upto: u64) -> bool
    ensures { IsTrue result
        ↔ ((address % 8192 ≡ 0) × (upto % 8 ≡ 0) × (address < upto) × (upto ≤ address + 8192)) }
{
    address % PAGE_SIZE == 0 && upto % WORD == 0 && address < upto && upto - address <= PAGE_SIZE
}

fn are_zeros(bytes: &[u8]) -> bool
    ensures { IsTrue result ↔ All (λ b. b ≡ 0) bytes.now }
{
    bytes.iter().all(|&byte| byte == 0)
}
