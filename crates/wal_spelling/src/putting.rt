//! A record's words put many at a time (PostgreSQL's CopyXLogRecordToWAL of xlog.c copies what of a
//! record lies on a page at once).

ghost use Rattle.std.specs.Prelude.{◌≡◌, ℕ, ◌+◌, ◌*◌, ◌/◌, ◌%◌, ◌<◌, ◌≤◌, [], length, take, drop, slice_index, slice_index_or};
ghost use Rattle.std.specs.Int.{w64, from_le_bytes};
ghost use Rattle.wal_spelling.specs.Spelling.{AssembledFits, assembled_room, filled, word_at};

use crate::body::{Body, first_word};
use wal_types::Lsn;

impl<'a> Body<'a> {
    /// Puts the record's words from the n-th on, as many as there are places, as they are written
    /// behind a record that starts at `prev`: each as `word` answers it.
    #[inline(always)]
    pub fn put_words(&self, prev: Lsn, n: u32, words: &mut [u64])
        requires starts_within { 8 * n < assembled_room self.now }
        requires ends_within { 8 * (n + length words.old) ≤ assembled_room self.now }
        ensures words { (k : ℕ) → k < length words.old
            → slice_index words.new k ≡ word_at (filled self.now prev.0) (n + k) }
        ensures ready { AssembledFits self.now }
    {
        let behind = self.after_header();
        match n {
            0 => self.put_from_header(prev, words),
            1 | 2 => self.put_each(prev, n, words),
            _ => put_words_of(&behind[(n as usize - 3) * 8..], words),
        }
    }

    /// The bytes of which its words are made from the n-th on, which lies behind the header: eight
    /// for each word, and perhaps fewer for the last one, whose others are zeros.
    #[inline(always)]
    pub fn bytes_from(&self, n: u32) -> &[u8]
        requires behind { 3 ≤ n }
        requires within { 8 * n < assembled_room self.now }
        ensures words { (prev k : ℕ) → 8 * (n + k) < assembled_room self.now
            → word_at result.now k ≡ word_at (filled self.now prev) (n + k) }
        ensures long { assembled_room self.now ≤ 8 * n + length result.now + 7 }
    {
        &self.after_header()[(n as usize - 3) * 8..]
    }

    // Puts the record's first words: those of the header, if there are places for all three, and
    // those behind it, which say nothing of the record before.
    #[inline(always)]
    fn put_from_header(&self, prev: Lsn, words: &mut [u64])
        requires { 8 * length words.old ≤ assembled_room self.now }
        ensures { (k : ℕ) → k < length words.old
            → slice_index words.new k ≡ word_at (filled self.now prev.0) k }
    {
        match words.split_first_chunk_mut::<3>() {
            Some((header, behind)) => {
                *header = self.header_words(prev);
                put_words_of(self.after_header(), behind);
            }
            None => self.put_each(prev, 0, words),
        }
    }
}

// Puts the words of bytes, with zeros for bytes that are not there.
#[inline(always)]
fn put_words_of(bytes: &[u8], words: &mut [u64])
    requires { 8 * length words.old ≤ length bytes.now + 7 }
    ensures { (k : ℕ) → k < length words.old
        → slice_index words.new k ≡ from_le_bytes w64 (take 8 (drop (8 * k) bytes.now)) }
{
    let (chunks, tail) = bytes.as_chunks::<8>();
    let whole = chunks.len().min(words.len());
    put_chunks(chunks, &mut words[..whole]);
    if whole < words.len() {
        words[whole] = last_word(bytes, tail);
    }
}

/// The word of the tail behind the last whole eight bytes, which is not empty. If there are eight
/// bytes, the last eight are read, and those that do not belong to it shifted out.
#[inline(always)]
pub fn last_word(bytes: &[u8], tail: &[u8]) -> u64
    requires tail { tail.now ≡ drop (length bytes.now / 8 * 8) bytes.now }
    requires some { 0 < length bytes.now % 8 }
    ensures { result ≡ from_le_bytes w64 (take 8 tail.now) }
{
    match bytes.last_chunk::<8>() {
        Some(eight) => u64::from_le_bytes(*eight) >> (64 - bytes.len() % 8 * 8),
        None => first_word(tail),
    }
}

// Puts one word for each chunk of eight bytes, while there are places.
#[inline(always)]
fn put_chunks(chunks: &[[u8; 8]], words: &mut [u64])
    requires { length words.old ≤ length chunks.now }
    ensures { (k : ℕ) → k < length words.old
        → slice_index words.new k ≡ from_le_bytes w64 (slice_index_or chunks.now k []) }
{
    for (n, word) in words.iter_mut().enumerate() {
        *word = u64::from_le_bytes(chunks[n]);
    }
}
