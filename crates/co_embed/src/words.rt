//! A word of 64 bits for each callout.
ghost use Rattle.std.specs.Prelude.{◌≡◌, get_or, set};

/// The word of callout `i`, or 0 where it has none.
#[inline(always)]
pub(crate) fn word_at(words: &[u64], i: u32) -> u64
    ensures { result ≡ get_or words.now i 0 }
{
    match words.get(i as usize) {
        None => 0,
        Some(word) => *word,
    }
}

/// Callout `i` has this word now, where it has one.
#[inline(always)]
pub(crate) fn set_word(words: &mut [u64], i: u32, word: u64)
    ensures { words.new ≡ set words.old i word }
{
    let index = i as usize;
    if index < words.len() {
        words[index] = word;
    }
}
