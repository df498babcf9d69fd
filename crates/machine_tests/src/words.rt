//! The words by their numbers.

ghost use Rattle.std.specs.Prelude.{◌≡◌, slice_index};

/// The word with a number, 0 where there is none.
pub(crate) fn word_at(words: &[u64], number: usize) -> u64
    ensures { result ≡ slice_index words.now number }
{
    match words.get(number) {
        Some(word) => *word,
        None => 0,
    }
}
