//! What the word of each option means.

ghost use Rattle.std.specs.Prelude.{◌≡◌, ◌<◌, ◌≤◌, IfSome, codes, is_some, option_map};
ghost use Rattle.waldump_filter.specs.Names.{fork_named, is_same_name};
ghost use Rattle.cli_line.specs.Meanings.{block_number_of, cap_segments_of, crash_of, cut_at_slash, hexadecimal_of, limit_of, line_count_of, lsn_of, manager_of, number_behind_custom, number_within, object_of, relation_of, ring_pages_of, segment_size_of, writer_lines_of, xid_of};

use crate::commands::CrashPick;
use byte_position::Geometry;
use cli_text::{hexadecimal_digit, number};
use wal_types::{Lsn, MAX_BLOCK_NUMBER, Rel, Xid};

const MIN_RING_PAGES: u64 = 4;

const MAX_RING_PAGES: u64 = 64;

const MAX_CAP_SEGMENTS: u64 = 4096;

const MAX_LINES: u64 = 100_000;

const MAX_WRITER_LINES: u64 = 1000;

const MIN_CUSTOM_MANAGER: u8 = 128;

// `custom` and three digits.
const CUSTOM_NAME_LEN: usize = 9;

// As many digits as a number of 32 bits has.
const MOST_HEXADECIMAL_DIGITS: usize = 8;

/// The segments' size that the word of `--seg` means.
pub fn segment_size(word: &str) -> Option<Geometry>
    ensures { result ≡ segment_size_of word.now }
{
    let size = number(word.as_bytes(), u64::MAX)?;
    Geometry::new(size)
}

fn number_within(word: &str, least: u64, most: u64) -> Option<u64>
    ensures value { result ≡ number_within least most word.now }
    ensures within { IfSome result (λ n. (least ≤ n) × (n ≤ most)) }
{
    let number = number(word.as_bytes(), most)?;
    (number >= least).then_some(number)
}

/// How many pages the word of `--ring` means: 4 to 64.
pub fn ring_pages(word: &str) -> Option<u32>
    ensures value { result ≡ ring_pages_of word.now }
    ensures within { IfSome result (λ n. (4 ≤ n) × (n ≤ 64)) }
{
    let pages = number_within(word, MIN_RING_PAGES, MAX_RING_PAGES)?;
    Some(pages as u32)
}

/// How many segments the word of `--cap` means: 1 to 4096.
pub fn cap_segments(word: &str) -> Option<u32>
    ensures value { result ≡ cap_segments_of word.now }
    ensures within { IfSome result (λ n. (1 ≤ n) × (n ≤ 4096)) }
{
    let segments = number_within(word, 1, MAX_CAP_SEGMENTS)?;
    Some(segments as u32)
}

/// How many lines each backend has, as the word behind `gen` says: 1 to 100000.
pub fn line_count(word: &str) -> Option<u32>
    ensures value { result ≡ line_count_of word.now }
    ensures within { IfSome result (λ n. (1 ≤ n) × (n ≤ 100000)) }
{
    let lines = number_within(word, 1, MAX_LINES)?;
    Some(lines as u32)
}

/// How many lines the log writer has, as the word of `--writer` says: 1 to 1000.
pub fn writer_lines(word: &str) -> Option<u32>
    ensures value { result ≡ writer_lines_of word.now }
    ensures within { IfSome result (λ n. (1 ≤ n) × (n ≤ 1000)) }
{
    let lines = number_within(word, 1, MAX_WRITER_LINES)?;
    Some(lines as u32)
}

/// Which words of the disk a crash leaves, as the word of `--crash` says: `old`, `new` or `odd`.
pub fn crash(word: &str) -> Option<CrashPick>
    ensures { result ≡ crash_of word.now }
{
    match word {
        "old" => Some(CrashPick::Old),
        "new" => Some(CrashPick::New),
        "odd" => Some(CrashPick::Odd),
        _ => None,
    }
}

/// How many records the word of `--limit` means: 1 or more.
pub fn limit(word: &str) -> Option<u64>
    ensures { result ≡ limit_of word.now }
{
    number_within(word, 1, u64::MAX)
}

/// The transaction that the word of `--xid` means.
pub fn xid(word: &str) -> Option<Xid>
    ensures { result ≡ xid_of word.now }
{
    let xid = object(word.as_bytes())?;
    Some(Xid(xid))
}

/// The number that the word of `--block` means: not the one that stands for no block.
pub fn block_number(word: &str) -> Option<u32>
    ensures { result ≡ block_number_of word.now }
{
    let block = number(word.as_bytes(), u64::from(MAX_BLOCK_NUMBER))?;
    Some(block as u32)
}

/// The relation that the word of `--relation` means: tablespace, database and relation, as
/// `1663/5/16384`.
pub fn relation(word: &str) -> Option<Rel>
    ensures { result ≡ relation_of word.now }
{
    let (spc, behind) = cut_at_slash(word.as_bytes())?;
    let (db, rel) = cut_at_slash(behind)?;
    Some(Rel {
        spc: object(spc)?,
        db: object(db)?,
        rel: object(rel)?,
    })
}

fn object(digits: &[u8]) -> Option<u32>
    ensures { result ≡ object_of digits.now }
{
    let number = number(digits, u64::from(u32::MAX))?;
    Some(number as u32)
}

// What stands before the first slash, and what behind it.
fn cut_at_slash(text: &[u8]) -> Option<(&[u8], &[u8])>
    ensures { option_map (λ p. (p.0.now, p.1.now)) result ≡ cut_at_slash text.now }
{
    match text.iter().position(|&byte| byte == b'/') {
        Some(end) => Some((&text[..end], &text[end + 1..])),
        None => None,
    }
}

/// The address that the word of `--start` or `--end` means, as `0/00100028`.
pub fn lsn(word: &str) -> Option<Lsn>
    ensures { result ≡ lsn_of word.now }
{
    let (high, low) = cut_at_slash(word.as_bytes())?;
    let high = hexadecimal(high)?;
    let low = hexadecimal(low)?;
    Some(Lsn((u64::from(high) << 32) + u64::from(low)))
}

// A number in 1 to 8 digits.
fn hexadecimal(digits: &[u8]) -> Option<u32>
    ensures { result ≡ hexadecimal_of digits.now }
{
    if digits.is_empty() || digits.len() > MOST_HEXADECIMAL_DIGITS {
        return None;
    }
    let mut value: u32 = 0;
    for byte in digits {
        value = value * 16 + u32::from(hexadecimal_digit(*byte)?);
    }
    Some(value)
}

/// The number of the manager that the word of `--rmgr` means: a name of PostgreSQL's own managers,
/// or `custom128` to `custom255`, in any case of ASCII letters.
pub fn manager(word: &str) -> Option<u8>
    ensures { result ≡ manager_of word.now }
{
    match waldump_filter::own_manager(word) {
        Some(rmid) => Some(rmid),
        None => custom_manager(word.as_bytes()),
    }
}

fn custom_manager(word: &[u8]) -> Option<u8>
    ensures { result ≡ number_behind_custom word.now }
{
    if word.len() != CUSTOM_NAME_LEN || !is_custom(&word[..6]) {
        return None;
    }
    let rmid = number(&word[6..], u64::from(u8::MAX))? as u8;
    (rmid >= MIN_CUSTOM_MANAGER).then_some(rmid)
}

fn is_custom(name: &[u8]) -> bool
    ensures { result ≡ is_same_name name.now (codes "custom") }
{
    name.eq_ignore_ascii_case(b"custom")
}

/// The number of the fork that the word of `--fork` means: `main`, `fsm`, `vm` or `init`.
pub fn fork(word: &str) -> Option<u8>
    ensures { result ≡ fork_named word.now }
{
    waldump_filter::fork(word)
}
