//! The words that are a command.
ghost use Rattle.std.specs.Prelude.{◌≡◌, IfNone, IfSome, Some, map, string_bytes};
ghost use Rattle.co_top.specs.declared.command.Command.TheVariants.{Serve};
ghost use Rattle.co_top.specs.Commands.{IsPlainCommand, command_of, making_of, reading_of, seed_of, serving_of, word_command};

use co_text::{is_word, number};

/// A command that reads an input, and needs one thread alone.
#[derive(Clone, Copy)]
pub enum Reading {
    /// Reads a script and writes the report of its walk.
    Steps,
    /// Reads a report and writes whether it is legal.
    Check,
    /// Reads a text of armings and writes its events: callouts that fire within their windows.
    Event,
}

/// A command that reads an input, works on a running service and leaves its closing.
#[derive(Clone, Copy)]
pub enum Serving {
    /// Reads a script, runs its actors on threads and writes the report of whatever happened.
    Run,
    /// Reads calls on kevent timers and writes their answers.
    Kq,
    /// Reads timed sleeps and wakeups and writes their answers.
    Sleep,
    /// Reads calls on interval timers and writes their answers.
    Itimer,
}

/// A command that makes its text from a seed, below 2^64, and leaves the input unread.
#[derive(Clone, Copy)]
pub enum Making {
    /// Writes the generated script.
    Gen(u64),
    /// Runs the generated script, and writes the counts of its notes and fates.
    Soak(u64),
}

/// A command of the program.
#[derive(Clone, Copy)]
pub enum Command {
    /// One that reads an input.
    Read(Reading),
    /// One that works on a running service.
    Serve(Serving),
    /// One that makes its text from a seed.
    Make(Making),
}

/// The command of one word that needs one thread alone.
fn reading_of(word: &[u8]) -> Option<Reading>
    ensures { result ≡ reading_of word.now }
{
    if is_word(word, b"steps".as_slice()) {
        Some(Reading::Steps)
    } else if is_word(word, b"check".as_slice()) {
        Some(Reading::Check)
    } else if is_word(word, b"event".as_slice()) {
        Some(Reading::Event)
    } else {
        None
    }
}

/// The command of one word that works on a running service.
fn serving_of(word: &[u8]) -> Option<Serving>
    ensures { result ≡ serving_of word.now }
{
    if is_word(word, b"run".as_slice()) {
        Some(Serving::Run)
    } else if is_word(word, b"kq".as_slice()) {
        Some(Serving::Kq)
    } else if is_word(word, b"sleep".as_slice()) {
        Some(Serving::Sleep)
    } else if is_word(word, b"itimer".as_slice()) {
        Some(Serving::Itimer)
    } else {
        None
    }
}

/// The command of one word.
fn word_command(word: &[u8]) -> Option<Command>
    ensures { result ≡ word_command word.now }
{
    if let Some(serving) = serving_of(word) {
        return Some(Command::Serve(serving));
    }
    match reading_of(word) {
        Some(reading) => Some(Command::Read(reading)),
        None => None,
    }
}

/// A seed: 1 to 20 digits with a value below 2^64.
fn seed_of(word: &[u8]) -> Option<u64>
    ensures { result ≡ seed_of word.now }
{
    match number(word) {
        Ok(seed) => u64::try_from(seed).ok(),
        Err(_) => None,
    }
}

/// The command of a word and a seed.
fn making_of(word: &[u8], seed: Option<u64>) -> Option<Making>
    ensures { result ≡ making_of word.now seed }
{
    let seed = seed?;
    if is_word(word, b"gen".as_slice()) {
        Some(Making::Gen(seed))
    } else if is_word(word, b"soak".as_slice()) {
        Some(Making::Soak(seed))
    } else {
        None
    }
}

/// The command that the words are, if they are one: `steps`, `run`, `check`, `gen N`, `soak N`, `kq`, `sleep`,
/// `itimer` or `event`. Our own decision.
pub(crate) fn command_of(words: &[String]) -> Option<Command>
    ensures { result ≡ command_of (map string_bytes words.now) }
{
    match words {
        [word] => word_command(word.as_bytes()),
        [word, seed] => match making_of(word.as_bytes(), seed_of(seed.as_bytes())) {
            Some(making) => Some(Command::Make(making)),
            None => None,
        },
        _ => None,
    }
}

/// The command on a running service that the words are, if they are one.
pub(crate) fn served(words: &[String]) -> Option<Serving>
    ensures some { IfSome result (λ serving. command_of (map string_bytes words.now) ≡ Some (Serve serving)) }
    ensures none { IfNone result (IsPlainCommand (map string_bytes words.now)) }
{
    match command_of(words) {
        Some(Command::Serve(serving)) => Some(serving),
        _ => None,
    }
}
