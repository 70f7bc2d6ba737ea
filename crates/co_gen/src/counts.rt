//! The counts of a run's notes, and the line that says them.
ghost use Rattle.std.specs.Prelude.{◌≡◌, IfOk};
ghost use Rattle.co_gen.specs.Soak.{soak_line};

use co_sbt::{NoMemory, Seq};
use co_text::{Page, Token};
use std::alloc::Global;

/// How many notes a run made, and what became of its armings. All numbers are counts.
#[derive(Clone, Copy, Debug, PartialEq, Eq)]
pub struct Counts {
    /// How many notes all actors made.
    pub notes: u64,
    /// The accepted armings of all callouts.
    pub armed: u64,
    /// The armings of them whose function ran.
    pub fired: u64,
    /// The armings whose place a later reset or schedule took.
    pub superseded: u64,
    /// The armings that a stop or a drain of either kind took away.
    pub stopped: u64,
    /// The armings that are to fire yet: pending, or waiting for their lock.
    pub pending: u64,
}

/// The line that says the counts of a seed's run: a word before each number, and a line feed. Its form is our own.
///
/// NoMemory where the line finds no memory.
pub fn print_soak(alloc: Global, seed: u64, counts: &Counts) -> Result<Seq<u8>, NoMemory>
    ensures { IfOk result (λ line. line ≡ soak_line seed counts.now) }
{
    let others = [
        Token::Number(seed),
        Token::Text(b"notes".as_slice()),
        Token::Number(counts.notes),
        Token::Text(b"armed".as_slice()),
        Token::Number(counts.armed),
        Token::Text(b"fired".as_slice()),
        Token::Number(counts.fired),
        Token::Text(b"superseded".as_slice()),
        Token::Number(counts.superseded),
        Token::Text(b"stopped".as_slice()),
        Token::Number(counts.stopped),
        Token::Text(b"pending".as_slice()),
        Token::Number(counts.pending),
    ];
    let mut page = Page::new(alloc);
    page.line(&Token::Text(b"soak".as_slice()), others.as_slice())?;
    page.done()
}
