//! Whether a word is the wanted one, byte by byte.
use super::is_right;
use co_text::is_word;

const WORDS: &[(&str, &str, bool)] = &[
    ("stop", "stop", true),
    ("stops", "stop", false),
    ("sto", "stop", false),
    ("Stop", "stop", false),
    ("stoP", "stop", false),
    ("", "stop", false),
    ("", "", true),
];

#[test]
fn a_word_is_the_wanted_one_or_not(rt: HostRuntime) {
    for (word, wanted, same) in WORDS {
        let right = is_word(word.as_bytes(), wanted.as_bytes()) == *same;
        is_right(&rt, word, right);
    }
}
