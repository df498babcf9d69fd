ghost use Rattle.std.specs.Prelude.{◌≡◌, ◌≤◌, ◌∷◌, ◌==◌, length};
ghost use Rattle.std.specs.List.{slice_split};
ghost use Rattle.cli_text.specs.Parts.{bytes_left, parts_left};

use crate::search::first_part_len;
use std::marker::Model;

/// The parts of a text between its separators, from the left; contracts see those that are left.
#[derive(Drop)]
pub struct Parts<'a> {
    separator: u8,
    // None behind the last part.
    rest: Option<&'a [u8]>,
}

impl<'a> Model for Parts<'a> {
    ghost use Rattle.std.specs.Prelude.{ℕ, List};
    ghost use Rattle.cli_text.specs.Parts.{parts_left};

    ghost Value = { List (List ℕ) };

    ghost view = { λ p. parts_left p.separator p.rest };
}

impl<'a> Parts<'a> {
    /// Whether no part is left.
    #[inline]
    pub fn is_done(&self) -> bool
        ensures { result ≡ (length self.now == 0) }
    {
        self.rest.is_none()
    }

    /// All parts of a text: one more than it has separators.
    pub fn of(text: &'a [u8], separator: u8) -> Parts<'a>
        ensures { result ≡ slice_split (λ c. c == separator) text.now }
    {
        Parts {
            separator,
            rest: Some(text),
        }
    }
}

impl<'a> Iterator for Parts<'a> {
    ghost use Rattle.std.specs.Iterator.{YieldsFirstRef, item_count};

    type Item = &'a [u8];

    ghost next_gives = { YieldsFirstRef (λ parts. parts) };

    ghost remaining = { item_count (λ parts. parts) };

    #[inline(always)]
    fn next(&mut self) -> Option<&'a [u8]> {
        let (part, rest) = cut_short(self.rest?, self.separator);
        self.rest = rest;
        Some(part)
    }
}

// The first part and what stands behind its separator, as `cut` tells them, quicker where the first
// part has one byte or two.
#[inline(always)]
fn cut_short(text: &[u8], separator: u8) -> (&[u8], Option<&[u8]>)
    ensures parts { slice_split (λ c. c == separator) text.now
        ≡ result.0.now ∷ parts_left separator result.1 }
{
    match text {
        [one, two, behind @ ..] if *one != separator => {
            if *two == separator {
                return (&text[..1], Some(behind));
            }
            match behind {
                [three, rest @ ..] if *three == separator => (&text[..2], Some(rest)),
                _ => cut(text, separator),
            }
        }
        _ => cut(text, separator),
    }
}

/// The first part, and what stands behind its separator where it has one.
#[inline(always)]
pub fn cut(text: &[u8], separator: u8) -> (&[u8], Option<&[u8]>)
    ensures parts { slice_split (λ c. c == separator) text.now
        ≡ result.0.now ∷ parts_left separator result.1 }
    ensures fewer { bytes_left result.1 ≤ length text.now }
{
    let end = first_part_len(text, separator);
    if end < text.len() {
        (&text[..end], Some(&text[end + 1..]))
    } else {
        (text, None)
    }
}
