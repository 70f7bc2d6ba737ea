//! The first line of a text, in one walk.
use co_text::{Cause, next_content};

// What the first line has before its comment or why it is refused, and the lines after it; nothing where there is no line.
type First = Option<(Result<&'static [u8], Cause>, &'static [u8])>;

const BYTE: First = Some((Err(Cause::Byte), b""));

const LINES: &[(&[u8], First)] = &[
    (b"hz 9\ncpus 2\n", Some((Ok(b"hz 9"), b"cpus 2\n"))),
    (b"\n\n", Some((Ok(b""), b"\n"))),
    (b"hz\t9\r\n", Some((Ok(b"hz\t9\r"), b""))),
    (b"hz 9 # ticks\ncpus", Some((Ok(b"hz 9 "), b"cpus"))),
    (b"#\x01\xff\n", Some((Ok(b""), b""))),
    (b"hz 9", Some((Err(Cause::Cut), b""))),
    (b"hz 9 # ticks", Some((Err(Cause::Cut), b""))),
    (b"hz\x00 9\ncpus\n", Some((Err(Cause::Byte), b"cpus\n"))),
    (b"hz 9\x7f\n", BYTE),
    (b"hz\x80", Some((Err(Cause::Cut), b""))),
    (b"", None),
    // Nine letters, and a comment in the place of each.
    (b"aaaaaaaaa\n", Some((Ok(b"aaaaaaaaa"), b""))),
    (b"#aaaaaaaa\n", Some((Ok(b""), b""))),
    (b"a#aaaaaaa\n", Some((Ok(b"a"), b""))),
    (b"aa#aaaaaa\n", Some((Ok(b"aa"), b""))),
    (b"aaa#aaaaa\n", Some((Ok(b"aaa"), b""))),
    (b"aaaa#aaaa\n", Some((Ok(b"aaaa"), b""))),
    (b"aaaaa#aaa\n", Some((Ok(b"aaaaa"), b""))),
    (b"aaaaaa#aa\n", Some((Ok(b"aaaaaa"), b""))),
    (b"aaaaaaa#a\n", Some((Ok(b"aaaaaaa"), b""))),
    (b"aaaaaaaa#\n", Some((Ok(b"aaaaaaaa"), b""))),
    // A byte that may not stand there in the place of each.
    (b"\x7faaaaaaaa\n", BYTE),
    (b"a\x7faaaaaaa\n", BYTE),
    (b"aa\x7faaaaaa\n", BYTE),
    (b"aaa\x7faaaaa\n", BYTE),
    (b"aaaa\x7faaaa\n", BYTE),
    (b"aaaaa\x7faaa\n", BYTE),
    (b"aaaaaa\x7faa\n", BYTE),
    (b"aaaaaaa\x7fa\n", BYTE),
    (b"aaaaaaaa\x7f\n", BYTE),
];

#[test]
fn a_line_gives_its_part_or_its_cause(rt: HostRuntime) {
    for (number, (text, first)) in LINES.iter().enumerate() {
        assert!(rt; next_content(text) == *first, "row {number}");
    }
}
