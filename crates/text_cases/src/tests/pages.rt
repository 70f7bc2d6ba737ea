//! A text that grows, word by word.
use co_text::{Page, Token};
use std::alloc::Global;
use std::process::Abort;

/// What is appended to a page.
#[derive(Clone, Copy)]
enum Part {
    /// A line of each kind of word.
    Line,
    Text(&'static [u8]),
    Number(u64),
    Signed(i32),
    /// A number behind ` u`.
    Tagged(u64),
    /// The end of a line.
    End,
}

/// The words of a line, behind the first.
static LINE: [Token<'static>; 3] = [
    Token::Number(3),
    Token::Lettered(b'f', 0),
    Token::Signed(-1),
];

/// Appends a part.
fn append<R: Abort>(rt: &R, page: &mut Page, part: Part) {
    let appended = match part {
        Part::Line => page.line(&Token::Text(b"reset"), &LINE),
        Part::Text(text) => page.text(text),
        Part::Number(number) => page.number(number),
        Part::Signed(number) => page.signed(number),
        Part::Tagged(number) => page.tagged(b" u", number),
        Part::End => page.end(),
    };
    appended.expect(rt, "no memory");
}

/// How often an `x` is appended by itself, the parts behind, and what the page then begins with, how many `x` follow, and how it ends.
type Case = (usize, &'static [Part], &'static str, usize, &'static str);

/// Words, and numbers with tags and signs.
const WORDS: &[Part] = &[
    Part::Line,
    Part::Tagged(0),
    Part::Tagged(10),
    Part::Tagged(999),
    Part::Tagged(1000),
    Part::Tagged(9999),
    Part::Tagged(10000),
    Part::Tagged(18446744073709551615),
    Part::Text(b" "),
    Part::Signed(-2147483648),
    Part::Text(b" "),
    Part::Signed(-1),
    Part::Text(b" "),
    Part::Signed(99),
];

const PAGES: &[Part] = &[
    Part::Number(18446744073709551615),
    Part::Text(b" pages"),
    Part::End,
];

const WRITTEN: &str = "18446744073709551615 pages\n";

const CASES: &[Case] = &[
    (
        0,
        WORDS,
        "reset 3 f0 -1\n u0 u10 u999 u1000 u9999 u10000 u18446744073709551615 -2147483648 -1 99",
        0,
        "",
    ),
    // No byte is lost where a page goes on.
    (0, PAGES, "", 0, WRITTEN),
    (484, PAGES, "", 484, WRITTEN),
    (485, PAGES, "", 485, WRITTEN),
    (486, PAGES, "", 486, WRITTEN),
    (487, PAGES, "", 487, WRITTEN),
    (488, PAGES, "", 488, WRITTEN),
    (489, PAGES, "", 489, WRITTEN),
    (505, PAGES, "", 505, WRITTEN),
    (511, PAGES, "", 511, WRITTEN),
    (512, PAGES, "", 512, WRITTEN),
    (513, PAGES, "", 513, WRITTEN),
    (1100, PAGES, "", 1100, WRITTEN),
    // A text that is longer than what is kept back.
    (
        0,
        &[Part::Number(7), Part::Text(&[b'x'; 1000]), Part::Number(7)],
        "7",
        1000,
        "7",
    ),
];

/// As many `x` as a page has at most.
static BLANKS: [u8; 1100] = [b'x'; 1100];

/// Whether a text begins so, goes on with so many `x`, and ends so.
fn is_around(text: &[u8], before: &str, blanks: usize, behind: &str) -> bool {
    match (text.strip_prefix(before.as_bytes()), BLANKS.get(..blanks)) {
        (Some(rest), Some(blanks)) => rest.strip_prefix(blanks) == Some(behind.as_bytes()),
        _ => false,
    }
}

/// Whether a page is as its case says.
fn is_written<R: Abort>(rt: &R, alloc: Global, case: &Case) -> bool {
    let (times, parts, before, blanks, behind) = *case;
    let mut page = Page::new(alloc);
    for _ in 0..times {
        append(rt, &mut page, Part::Text(b"x"));
    }
    for part in parts {
        append(rt, &mut page, *part);
    }
    let text = page.done().expect(rt, "no memory");
    let right = is_around(text.as_slice(), before, blanks, behind);
    drop(text);
    right
}

#[test]
fn pages_have_each_byte_of_their_parts(rt: HostRuntime) {
    for (number, case) in CASES.iter().enumerate() {
        assert!(rt; is_written(&rt, rt.alloc(), case), "row {number}");
    }
}
