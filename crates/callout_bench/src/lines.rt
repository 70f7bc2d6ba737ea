//! The lines that say what was counted. Each call answers `NoMemory` where the page finds no room.
use crate::queues::{Counts, Kind};
use crate::work::{Where, Work};
use crate::world::Walked;
use co_sbt::NoMemory;
use co_text::{Page, Token};

/// A run of a queue.
pub fn queue(page: &mut Page, kind: Kind, counts: &Counts) -> Result<(), NoMemory> {
    let name = match kind {
        Kind::List => b"list:".as_slice(),
        Kind::Wheel => b"wheel:".as_slice(),
    };
    page.line(
        &Token::Text(name),
        &[
            Token::Number(counts.replaced),
            Token::Text(b"replaced,"),
            Token::Number(counts.stopped),
            Token::Text(b"stopped,"),
            Token::Number(counts.fired),
            Token::Text(b"fired,"),
            Token::Number(counts.scans),
            Token::Text(b"scans,"),
            Token::Number(counts.looks),
            Token::Text(b"looks"),
        ],
    )
}

/// So many of these.
pub fn count(page: &mut Page, number: u64, what: &[u8]) -> Result<(), NoMemory> {
    page.line(&Token::Number(number), &[Token::Text(what)])
}

/// A world that was stepped.
pub fn world(page: &mut Page, walked: &Walked) -> Result<(), NoMemory> {
    page.line(
        &Token::Number(walked.notes),
        &[
            Token::Text(b"notes,"),
            Token::Number(walked.refused),
            Token::Text(b"steps refused"),
        ],
    )
}

/// A run of threads.
pub fn threads(page: &mut Page, what: &str, work: &Work, count: u64) -> Result<(), NoMemory> {
    let place = match work.at {
        Where::Apart => b"apart:".as_slice(),
        Where::One => b"one:".as_slice(),
    };
    page.line(
        &Token::Text(what.as_bytes()),
        &[
            Token::Text(place),
            Token::Number(u64::from(work.threads)),
            Token::Text(b"threads,"),
            Token::Number(count),
            Token::Text(b"counted"),
        ],
    )
}
