//! Longer pieces by a multiple of the polynomial that has few terms: x^209 + x^144 + x^54 + x^39 +
//! x^14 + 1, and so the same of x^8. A byte may be taken away, if it is put on the bytes 65, 155,
//! 170, 195 and 209 places behind it: the remainder of all stays. So all but the last bytes of a
//! piece are taken away, sixteen at a time, since none is put on a byte nearer than that.

ghost use Rattle.std.specs.Prelude.{
  ◌≡◌,
  ℕ,
  ◌+◌,
  ◌<◌,
  ◌≤◌,
  ◌++◌,
  length,
  take,
  drop,
  fold,
  replicate,
};
ghost use Rattle.std.specs.Int.Bits.{bit_xor};
ghost use mir.Syntax.{w8};
ghost use mir.Val.{Fits};
ghost use lib.Lanes.{Each1, chunk, put_chunk};
ghost use Rattle.wal_crc32c.specs.Crc32c.{after_byte, times_power};
ghost use Rattle.wal_crc32c.specs.Folding.{remainder};
ghost use Rattle.wal_crc32c.specs.SparseMultiple.{terms, over, CarriesOn};

use crate::crc::after_long_bytes;
use crate::folding::mixed;
use std::simd::prelude::*;

// So many bytes go at a time through a room, behind the 209 that were taken away before. A larger
// room would cost more to make than the moves to its front.
const PIECE: usize = 1792;

const ROOM: usize = PIECE + LEFT;

// So many bytes are left: the 209 that are put upon, made up to whole vectors.
const LEFT: usize = 224;

#[inline(always)]
fn vector_at(bytes: &[u8], at: usize) -> u8x16
    requires { at + 16 ≤ length bytes.now }
    ensures { result ≡ chunk at 16 bytes.now }
{
    u8x16::from_slice(&bytes[at..])
}

#[inline(always)]
fn store(v: u8x16, bytes: &mut [u8], at: usize)
    requires { at + 16 ≤ length bytes.old }
    ensures stored { bytes.new ≡ put_chunk at bytes.old v }
    ensures lanes { (length v ≡ 16) × Each1 (Fits w8) v }
{
    v.copy_to_slice(&mut bytes[at..]);
}

// Sixteen bytes with all that is put on them: the 209 bytes before them stand in the room.
#[inline(always)]
fn put_upon(v: u8x16, room: &[u8; ROOM], at: usize) -> u8x16
    requires { at + 160 ≤ ROOM }
    ensures { remainder result
        ≡ bit_xor (remainder v) (over terms (λ k. remainder (chunk (at + k) 16 room.now))) }
{
    // The youngest bytes last: they were stored a moment ago, and the others do not wait for them.
    v ^ vector_at(room, at)
        ^ vector_at(room, at + 14)
        ^ vector_at(room, at + 39)
        ^ vector_at(room, at + 54)
        ^ vector_at(room, at + 144)
}

// The vector is kept in the room, behind those before, for the bytes that it is put on.
#[inline(always)]
fn take_away(room: &mut [u8; ROOM], at: usize, v: u8x16)
    requires { at + 225 ≤ ROOM }
    ensures { (r : ℕ) → CarriesOn (chunk at 209 room.old) r
        → CarriesOn (chunk (at + 16) 209 room.new) (fold after_byte r v) }
{
    store(put_upon(v, room, at), room, at + 209);
}

#[inline(always)]
fn take_four_away(room: &mut [u8; ROOM], at: usize, bytes: &[u8])
    requires bytes { at + 64 ≤ length bytes.now }
    requires room { at + 273 ≤ ROOM }
    ensures { (r : ℕ) → CarriesOn (chunk at 209 room.old) r
        → CarriesOn (chunk (at + 64) 209 room.new) (fold after_byte r (chunk at 64 bytes.now)) }
{
    take_away(room, at, vector_at(bytes, at));
    take_away(room, at + 16, vector_at(bytes, at + 16));
    take_away(room, at + 32, vector_at(bytes, at + 32));
    take_away(room, at + 48, vector_at(bytes, at + 48));
}

#[inline(always)]
fn take_sixteen_away(room: &mut [u8; ROOM], at: usize, bytes: &[u8])
    requires bytes { at + 256 ≤ length bytes.now }
    requires room { at + 465 ≤ ROOM }
    ensures { (r : ℕ) → CarriesOn (chunk at 209 room.old) r
        → CarriesOn (chunk (at + 256) 209 room.new) (fold after_byte r (chunk at 256 bytes.now)) }
{
    take_four_away(room, at, bytes);
    take_four_away(room, at + 64, bytes);
    take_four_away(room, at + 128, bytes);
    take_four_away(room, at + 192, bytes);
}

// Whole blocks of 256 bytes. Answers how many bytes these are.
fn take_blocks_away(room: &mut [u8; ROOM], piece: &[u8]) -> usize
    requires { length piece.now ≤ PIECE }
    ensures within { result ≤ length piece.now }
    ensures all { length piece.now < result + 256 }
    ensures taken { (r : ℕ) → CarriesOn (take 209 room.old) r
        → CarriesOn (chunk result 209 room.new) (fold after_byte r (take result piece.now)) }
{
    // From there on fewer than 256 are left. So put, a turn has one sum and one comparison.
    let end = piece.len().saturating_sub(255);
    let mut at = 0;
    while at < end {
        take_sixteen_away(room, at, piece);
        at += 256;
    }
    at
}

// The whole vectors behind the first bytes, which were taken away before. Answers how many bytes
// are taken away then.
fn take_vectors_away(room: &mut [u8; ROOM], first: usize, piece: &[u8]) -> usize
    requires piece { (16 ≤ length piece.now) × (length piece.now ≤ PIECE) }
    requires first { first ≤ length piece.now }
    ensures within { result ≤ length piece.now }
    ensures all { length piece.now < result + 16 }
    ensures taken { (r : ℕ)
        → CarriesOn (chunk first 209 room.old) (fold after_byte r (take first piece.now))
        → CarriesOn (chunk result 209 room.new) (fold after_byte r (take result piece.now)) }
{
    let end = piece.len() - 15;
    let mut at = first;
    while at < end {
        take_away(room, at, vector_at(piece, at));
        at += 16;
    }
    at
}

// All bytes but the last, fewer than sixteen. Answers how many these are.
fn take_piece_away(room: &mut [u8; ROOM], piece: &[u8]) -> usize
    requires { (16 ≤ length piece.now) × (length piece.now ≤ PIECE) }
    ensures within { result ≤ length piece.now }
    ensures all { length piece.now < result + 16 }
    ensures taken { (r : ℕ) → CarriesOn (take 209 room.old) r
        → CarriesOn (chunk result 209 room.new) (fold after_byte r (take result piece.now)) }
{
    let first = take_blocks_away(room, piece);
    take_vectors_away(room, first, piece)
}

// The last 209 bytes taken away go where the next piece finds them.
fn move_to_front(room: &mut [u8; ROOM], from: usize)
    requires { from ≤ PIECE }
    ensures { take 209 room.new ≡ chunk from 209 room.old }
{
    let mut at = 0;
    while at + 16 <= LEFT {
        store(vector_at(room, from + at), room, at);
        at += 16;
    }
}

// All bytes but the last 224 to 239. Answers how many these are.
fn take_all_away(room: &mut [u8; ROOM], bytes: &[u8]) -> usize
    requires { 224 ≤ length bytes.now }
    ensures within { result + 224 ≤ length bytes.now }
    ensures all { length bytes.now < result + 240 }
    ensures taken { (r : ℕ) → CarriesOn (take 209 room.old) r
        → CarriesOn (take 209 room.new) (fold after_byte r (take result bytes.now)) }
{
    let mut done = 0;
    while done + 240 <= bytes.len() {
        let most = (bytes.len() - LEFT - done).min(PIECE);
        let taken = take_piece_away(room, &bytes[done..done + most]);
        move_to_front(room, taken);
        done += taken;
    }
    done
}

// Nothing more is put on the bytes that are left.
fn clear(room: &mut [u8; ROOM])
    ensures { take 369 room.new ≡ take 209 room.old ++ replicate 160 0 }
{
    let mut at = 209;
    while at + 16 <= 369 {
        store(u8x16::splat(0), room, at);
        at += 16;
    }
}

// The last bytes with all that is put on them: their remainder alone is that of the whole.
fn left_of(room: &mut [u8; ROOM], last: &[u8; LEFT]) -> [u8; LEFT]
    ensures { (r : ℕ) → CarriesOn (take 209 room.old) r
        → remainder result ≡ fold after_byte r last.now }
{
    clear(room);
    let mut left = [0; LEFT];
    let mut at = 0;
    while at + 16 <= LEFT {
        store(put_upon(vector_at(last, at), room, at), &mut left, at);
        at += 16;
    }
    left
}

// The first vector takes in what stands before.
fn begin(room: &mut [u8; ROOM], before: u32, v: u8x16)
    requires { take 193 room.old ≡ replicate 193 0 }
    ensures { CarriesOn (take 209 room.new) (fold after_byte before v) }
{
    store(mixed(before, v), room, 193);
}

/// The remainder after a longer piece.
pub(crate) fn after_longer_bytes(before: u32, bytes: &[u8]) -> u32
    requires { 240 ≤ length bytes.now }
    ensures { result ≡ fold after_byte before bytes.now }
{
    let mut room = [0; ROOM];
    begin(&mut room, before, vector_at(bytes, 0));
    let behind = &bytes[16..];
    let taken = take_all_away(&mut room, behind);
    match behind[taken..].split_first_chunk::<224>() {
        Some((last, rest)) => after_long_bytes(
            after_long_bytes(0, &left_of(&mut room, last)),
            rest,
        ),
        None => after_long_bytes(before, bytes),
    }
}
