//! The words that are a view.
ghost use Rattle.std.specs.Prelude.{◌≡◌, map, string_bytes};
ghost use Rattle.co_view_top.specs.Views.{lone_view, object_view, small_number, view_of};
ghost use Rattle.co_text.specs.Values.{number};

use co_text::{is_word, number};
use co_view::{Focus, Picture};

/// A view of a report.
#[derive(Clone, Copy)]
pub enum View {
    /// A column for each actor and a row for each note.
    Lanes(Focus),
    /// A row for each callout: its armings and its replies.
    Summary,
    /// A picture.
    Picture(Picture),
}

/// The view of one word.
fn lone_view(word: &[u8]) -> Option<View>
    ensures { result ≡ lone_view word.now }
{
    if is_word(word, b"lanes".as_slice()) {
        Some(View::Lanes(Focus::All))
    } else if is_word(word, b"summary".as_slice()) {
        Some(View::Summary)
    } else if is_word(word, b"trace".as_slice()) {
        Some(View::Picture(Picture::Trace))
    } else if is_word(word, b"svg".as_slice()) {
        Some(View::Picture(Picture::Svg))
    } else {
        None
    }
}

/// The number of an object, below 2^32.
fn small_number(word: &[u8]) -> Option<u32>
    ensures { result ≡ small_number (number word.now) }
{
    match number(word) {
        Ok(n) => u32::try_from(n).ok(),
        Err(_) => None,
    }
}

/// The view of one object.
fn object_view(word: &[u8], number: Option<u32>) -> Option<View>
    ensures { result ≡ object_view word.now number }
{
    let n = number?;
    if is_word(word, b"timer".as_slice()) {
        Some(View::Lanes(Focus::Timer(n)))
    } else if is_word(word, b"cpu".as_slice()) {
        Some(View::Lanes(Focus::Cpu(n)))
    } else {
        None
    }
}

/// The view that the words are, if they are one: `lanes`, which may be left out, `timer N`, `cpu N`, `summary`, `trace` or `svg`. Our own decision.
pub(crate) fn view_of(words: &[String]) -> Option<View>
    ensures { result ≡ view_of (map string_bytes words.now) }
{
    match words {
        [] => Some(View::Lanes(Focus::All)),
        [word] => lone_view(word.as_bytes()),
        [word, n] => object_view(word.as_bytes(), small_number(n.as_bytes())),
        _ => None,
    }
}
