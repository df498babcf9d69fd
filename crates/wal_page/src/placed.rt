//! The words of a record at its place in the log (PostgreSQL's CopyXLogRecordToWAL of xlog.c).
//!
//! Each word of the log has one owner: the record in whose room its byte position lies. The words
//! of a page's header have the position of the page's first other byte, so that whoever reserved
//! that byte writes the header too: that record alone knows how many of its bytes are still to
//! come, which the header tells. So a record's words are one stretch of addresses, no two records
//! give the same word, and a page is whole once each record that touches it has given its words.
//! Once its place is reserved, a record's words are the log's at their addresses, whatever records
//! come behind it: so copies of different records need no order between them. A segment switch owns
//! the rest of its segment too, which it gives as zeros, the headers of pages that hold nothing
//! else among them.

ghost use Rattle.std.specs.Prelude.{◌≡◌, ℕ, ◌+◌, ◌-◌, ◌*◌, ◌%◌, ◌^◌, ◌<◌, ◌≤◌, ◌↔◌, ◌==◌, IfSome, IfNone, IsSome, IsTrue, length, if◌then◌else◌};
ghost use Rattle.byte_position.specs.Position.{end_address_of, is_in_header, position_of};
ghost use Rattle.wal_spelling.specs.Spelling.{assembled_room, assembled_size, word_at};
ghost use Rattle.wal_page.specs.Order.{assembled_room_at};
ghost use Rattle.wal_page.specs.Page.{header_size};
ghost use Rattle.wal_page.specs.Placed.{HasWordsFrom, IsWordOfLog, LieTogether, Owns, header_word, placed_end, placed_word};

use crate::header::page_header_word;
use crate::room::room_at;
use byte_position::{Geometry, PAGE_SIZE, WORD};
use std::marker::Model;
use wal_spelling::Body;
use wal_types::Lsn;

/// A record at its place: gives its words with their addresses, those of the page headers that it
/// owns among them.
#[derive(Debug, Drop)]
pub struct Placed<'a> {
    geometry: Geometry,
    sysid: u64,
    body: &'a Body<'a>,
    // The byte position at which the record starts, and how many bytes of the log it takes up.
    start: u64,
    room: u64,
    // Where the record before starts.
    prev: Lsn,
    // Where the next word lies.
    next: u64,
    // How many bytes of the record's room lie before the next word.
    passed: u64,
}

impl<'a> Model for Placed<'a> {
    ghost use Rattle.wal_page.specs.Placed.{PlacedState, StandsAt};

    ghost Value = { PlacedState };

    ghost view = { λ p. record {
      size = p.geometry;
      sysid = p.sysid;
      body = p.body.now;
      start = p.start;
      prev = p.prev.0;
      next = p.next;
    } };

    ghost invariant = { λ p. StandsAt p.geometry p.body.now p.start p.room p.next p.passed };
}

impl<'a> Placed<'a> {
    /// A record that starts at a byte position, behind one that starts at `prev` (0 where there is
    /// none).
    #[inline(always)]
    pub fn new(
        geometry: Geometry,
        sysid: u64,
        body: &'a Body<'a>,
        start: u64,
        prev: Lsn,
    ) -> Placed<'a>
        requires whole { start % 8 ≡ 0 }
        requires within { start + assembled_room_at geometry start body.now < 2 ^ 60 }
        ensures { result ≡ record {
          size = geometry;
          sysid = sysid;
          body = body.now;
          start = start;
          prev = prev.0;
          next = end_address_of geometry start;
        } }
    {
        let room = room_at(geometry, start, body);
        let next = geometry.to_end_lsn(start);
        Placed::reserved(geometry, sysid, body, start, room, prev, next)
    }

    /// A record that starts at a byte position, where its room and the address of its first word
    /// are known: who reserved its place has computed both.
    #[inline(always)]
    pub fn reserved(
        geometry: Geometry,
        sysid: u64,
        body: &'a Body<'a>,
        start: u64,
        room: u64,
        prev: Lsn,
        next: Lsn,
    ) -> Placed<'a>
        requires whole { start % 8 ≡ 0 }
        requires room { room ≡ assembled_room_at geometry start body.now }
        requires within { start + room < 2 ^ 60 }
        requires next { next.0 ≡ end_address_of geometry start }
        ensures { result ≡ record {
          size = geometry;
          sysid = sysid;
          body = body.now;
          start = start;
          prev = prev.0;
          next = end_address_of geometry start;
        } }
    {
        Placed {
            geometry,
            sysid,
            body,
            start,
            room,
            prev,
            next: next.0,
            passed: 0,
        }
    }

    /// A record whose next word is one further on, for a copy that goes on where it stopped: any
    /// word that the record owns, or where its last one ends.
    pub fn at(
        geometry: Geometry,
        sysid: u64,
        body: &'a Body<'a>,
        start: u64,
        prev: Lsn,
        next: Lsn,
    ) -> Placed<'a>
        // The place is one that a record can have, and `next` is one of its words, or where it
        // ends.
        requires whole { start % 8 ≡ 0 }
        requires within { start + assembled_room_at geometry start body.now < 2 ^ 60 }
        requires at_word { next.0 % 8 ≡ 0 }
        requires begun { end_address_of geometry start ≤ next.0 }
        requires owned { next.0
            ≤ end_address_of geometry (start + assembled_room_at geometry start body.now) }
        ensures { result ≡ record {
          size = geometry;
          sysid = sysid;
          body = body.now;
          start = start;
          prev = prev.0;
          next = next.0;
        } }
    {
        Placed {
            geometry,
            sysid,
            body,
            start,
            room: room_at(geometry, start, body),
            prev,
            next: next.0,
            passed: geometry.position_of(next) - start,
        }
    }

    /// The next word and where it lies. Each call answers the word behind the last one's, so that
    /// each word that the record owns comes once, in rising order.
    pub fn next_word(&mut self) -> Option<(Lsn, u64)>
        // The word lies where the last one ended, is the record's own, and is the log's word there
        // in every order that has the record at this place.
        ensures place { IfSome result (λ given. (given.0.0 ≡ self.old.next)
            × (self.old.next % 8 ≡ 0)
            × Owns self.old.size self.old.body self.old.start self.old.next) }
        ensures word { IfSome result (λ given. given.1 ≡ placed_word self.old self.old.next) }
        ensures gives { IfSome result (λ given. IsWordOfLog self.old given.0.0 given.1) }
        // It goes on by one word; `None` says that the record's last word was given.
        ensures passed { IfSome result (λ given. self.new
            ≡ record self.old { next = self.old.next + 8 }) }
        ensures whole { IfNone result (self.old.next ≡ placed_end self.old) }
        ensures same { IfNone result (self.new ≡ self.old) }
    {
        if self.passed == self.room {
            return None;
        }
        let at = self.next;
        let in_header = self.geometry.is_in_header(Lsn(at));
        let word = self.word_here(in_header);
        if !in_header {
            self.passed += WORD;
        }
        self.next = at + WORD;
        Some((Lsn(at), word))
    }

    // The word at the next place, which is in a page's header or not.
    fn word_here(&self, in_header: bool) -> u64
        requires { in_header ≡ is_in_header self.now.size self.now.next }
        ensures { result ≡ placed_word self.now self.now.next }
    {
        if self.own_left() == 0 {
            0
        } else if in_header {
            let page = self.next / PAGE_SIZE;
            let n = (self.next % PAGE_SIZE / WORD) as u32;
            let remaining = still_to_come(self.body, self.passed);
            page_header_word(self.geometry, self.sysid, page, remaining, n)
        } else {
            let n = self.word_number();
            self.body.word(self.prev, n)
        }
    }

    // Which of the record's own words is the next one.
    #[inline(always)]
    fn word_number(&self) -> u32
        requires { position_of self.now.size self.now.next
            < self.now.start + assembled_room self.now.body }
        ensures { 8 * result ≡ position_of self.now.size self.now.next - self.now.start }
    {
        prove!(self.passed < u64::from(self.body.room()));
        (self.passed / WORD) as u32
    }

    // How many of the record's own bytes are left from the next word on; those behind are zeros.
    #[inline(always)]
    fn own_left(&self) -> u64
        ensures { result ≡ self.now.start + assembled_room self.now.body
            - position_of self.now.size self.now.next }
    {
        u64::from(self.body.room()).saturating_sub(self.passed)
    }

    /// Puts the record's next words, as many as there are places: those that `next_word` would give
    /// one by one. The record's own words that lie together on a page, its header's too, are put at
    /// once, so those of most short records all together; and so are all zeros behind it.
    #[inline(always)]
    pub fn put_words(&mut self, words: &mut [u64])
        requires { self.old.next + 8 * length words.old ≤ placed_end self.old }
        ensures placed { self.new
            ≡ record self.old { next = self.old.next + 8 * length words.old } }
        ensures words { HasWordsFrom self.old (length words.old) words.new }
    {
        let mut put = 0;
        while put < words.len() {
            put += self.put_some(&mut words[put..]);
        }
    }

    /// Whether so many words, from the next one on, lie together behind the header of its page, and
    /// are the record's own.
    #[inline(always)]
    pub fn lie_together(&self, count: usize) -> bool
        requires on_page { self.now.next % 8192 + 8 * count ≤ 8192 }
        ensures { IsTrue result ↔ LieTogether self.now count }
    {
        if self.passed + WORD * count as u64 > u64::from(self.body.room()) {
            return false;
        }
        if self.geometry.is_in_header(Lsn(self.next)) {
            return false;
        }
        true
    }

    /// Whether all words that are left are zeros behind the record's own.
    pub fn is_behind_own(&self) -> bool
        ensures { IsTrue result ↔ (self.now.start + assembled_room self.now.body
            ≤ position_of self.now.size self.now.next) }
    {
        self.own_left() == 0
    }

    /// The three words of the record's header, if they are the next ones, where so many words lie
    /// together. It goes on behind them.
    #[inline(always)]
    pub fn take_header(&mut self, count: usize) -> Option<[u64; 3]>
        requires together { LieTogether self.old count }
        requires owned { self.old.next + 8 * count ≤ placed_end self.old }
        ensures when { IsSome result
            ↔ (position_of self.old.size self.old.next ≡ self.old.start) × (3 ≤ count) }
        ensures words { IfSome result (λ words.
            (length words ≡ 3) × HasWordsFrom self.old 3 words) }
        ensures within { IfSome result (λ _. 3 ≤ count) }
        ensures placed { IfSome result (λ _. self.new
            ≡ record self.old { next = self.old.next + 8 * 3 }) }
        ensures together { IfSome result (λ _. 3 < count → LieTogether self.new (count - 3)) }
        ensures none { IfNone result (self.new ≡ self.old) }
    {
        if self.passed > 0 {
            return None;
        }
        if count < 3 {
            return None;
        }
        self.passed += 3 * WORD;
        self.next += 3 * WORD;
        Some(self.body.header_words(self.prev))
    }

    /// The bytes of which the next words are made, so many, where they lie together behind the
    /// record's header: eight for each word, and perhaps fewer for the last one, whose others are
    /// zeros. It goes on behind them.
    #[inline(always)]
    pub fn take_bytes(&mut self, count: usize) -> Option<&'a [u8]>
        requires some { 0 < count }
        requires together { LieTogether self.old count }
        requires owned { self.old.next + 8 * count ≤ placed_end self.old }
        ensures when { IsSome result
            ↔ (self.old.start + 24 ≤ position_of self.old.size self.old.next) }
        ensures words { IfSome result (λ bytes. (k : ℕ) → k < count
            → word_at bytes.now k ≡ placed_word self.old (self.old.next + 8 * k)) }
        ensures long { IfSome result (λ bytes. 8 * count ≤ length bytes.now + 7) }
        ensures placed { IfSome result (λ _. self.new
            ≡ record self.old { next = self.old.next + 8 * count }) }
        ensures none { IfNone result (self.new ≡ self.old) }
    {
        if self.passed < 3 * WORD {
            return None;
        }
        let bytes = self.body.bytes_from(self.word_number());
        self.passed += WORD * count as u64;
        self.next += WORD * count as u64;
        Some(bytes)
    }

    // Puts at least one word: all of the record's own that lie together on a page, or one of a
    // page's header, or all zeros behind the record.
    #[inline(always)]
    fn put_some(&mut self, words: &mut [u64]) -> usize
        requires some { 0 < length words.old }
        requires owned { self.old.next + 8 * length words.old ≤ placed_end self.old }
        // As many words as it answers are put at the front, and it goes on behind them.
        ensures count { (0 < result) × (result ≤ length words.old) }
        ensures placed { self.new ≡ record self.old { next = self.old.next + 8 * result } }
        ensures words { HasWordsFrom self.old result words.new }
    {
        let count = self.words_together(words.len());
        if count > 0 {
            self.put_together(&mut words[..count]);
            return count;
        }
        self.put_others(words)
    }

    // Puts at least one word where the next one is none of the record's own: all zeros behind the
    // record, or one of a page's header.
    #[inline(never)]
    fn put_others(&mut self, words: &mut [u64]) -> usize
        requires some { 0 < length words.old }
        requires owned { self.old.next + 8 * length words.old ≤ placed_end self.old }
        ensures count { (0 < result) × (result ≤ length words.old) }
        ensures placed { self.new ≡ record self.old { next = self.old.next + 8 * result } }
        ensures words { HasWordsFrom self.old result words.new }
    {
        if self.own_left() == 0 {
            let count = words.len();
            self.put_zeros(words);
            return count;
        }
        if let Some((_, word)) = self.next_word() {
            words[0] = word;
        }
        1
    }

    // How many of the next words, at most so many, lie together on a page behind its header, as the
    // record's own do, before any zeros behind them.
    #[inline(always)]
    fn words_together(&self, most: usize) -> usize
        ensures most { result ≤ most }
        ensures together { 0 < result → LieTogether self.now result }
    {
        if self.geometry.is_in_header(Lsn(self.next)) {
            return 0;
        }
        let left = (PAGE_SIZE - self.next % PAGE_SIZE).min(self.own_left()) / WORD;
        most.min(left as usize)
    }

    // Puts zeros, which all words behind the record's own are, in headers and out of them.
    fn put_zeros(&mut self, words: &mut [u64])
        requires behind { self.old.start + assembled_room self.old.body
            ≤ position_of self.old.size self.old.next }
        requires owned { self.old.next + 8 * length words.old ≤ placed_end self.old }
        ensures placed { self.new
            ≡ record self.old { next = self.old.next + 8 * length words.old } }
        ensures words { HasWordsFrom self.old (length words.old) words.new }
    {
        words.fill(0);
        self.next += WORD * words.len() as u64;
        self.passed = self.geometry.position_of(Lsn(self.next)) - self.start;
    }

    // Puts words that lie together.
    #[inline(always)]
    fn put_together(&mut self, words: &mut [u64])
        requires some { 0 < length words.old }
        requires together { LieTogether self.old (length words.old) }
        requires owned { self.old.next + 8 * length words.old ≤ placed_end self.old }
        ensures placed { self.new
            ≡ record self.old { next = self.old.next + 8 * length words.old } }
        ensures words { HasWordsFrom self.old (length words.old) words.new }
    {
        let bytes = WORD * words.len() as u64;
        self.body.put_words(self.prev, self.word_number(), words);
        self.passed += bytes;
        self.next += bytes;
    }

    /// Where the next word lies: where the record ends, once all words were given.
    pub fn next_lsn(&self) -> Lsn
        ensures { result.0 ≡ self.now.next }
    {
        Lsn(self.next)
    }
}

/// The n-th word of a page's header, given by the record that has the page's first other byte: 0
/// where the page holds nothing but zeros behind a switch. `page` counts from the log's byte 0.
pub fn header_word(geometry: Geometry, sysid: u64, page: u64, owner: &Placed, n: u32) -> u64
    requires owner { Owns geometry owner.now.body owner.now.start (page * 8192) }
    requires within { 8 * n < header_size geometry page }
    ensures { result ≡ header_word geometry sysid page owner.now.body owner.now.start n }
{
    let start = owner.start;
    let passed = match geometry.of_lsn(Lsn(page * PAGE_SIZE)) {
        Some(position) => position - start,
        None => 0,
    };
    if passed >= u64::from(owner.body.room()) {
        return 0;
    }
    page_header_word(geometry, sysid, page, still_to_come(owner.body, passed), n)
}

// How many of a record's bytes are still to come behind its first `passed` ones, where it is
// continued; 0 at its start.
fn still_to_come(body: &Body, passed: u64) -> u32
    requires whole { passed % 8 ≡ 0 }
    requires within { passed < assembled_room body.now }
    ensures { result ≡ (if passed == 0 then 0 else assembled_size body.now - passed) }
{
    let len = body.len();
    if passed == 0 { 0 } else { len - passed as u32 }
}
