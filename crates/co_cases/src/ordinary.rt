//! Ordinary use: connections that each have a timer for a retransmit, a persist, a keepalive and a long wait at the end.
ghost use Rattle.std.specs.Prelude.{◌<◌};

use co_sbt::Seq;
use co_text::{Page, Token};
use std::alloc::Global;
use std::process::Abort;

const CLIENTS: u32 = 8;

const CPUS: u32 = 4;

const CONNECTIONS: u32 = 200;

/// The timers of a connection, and their spans.
static SPANS: [(u32, &str); 4] = [(0, "+0.2"), (1, "+5"), (2, "+7200"), (3, "+60")];

// A line of these words is put behind the others.
fn add(rt: &impl Abort, script: &mut Page, first: &str, others: &[Token]) {
    let line = script.line(&Token::Text(first.as_bytes()), others);
    line.expect(rt, "no memory");
}

// A number as a word.
fn word<'w>(number: u32) -> Token<'w> {
    Token::Number(u64::from(number))
}

// The lock of each connection, and the four timers behind it.
fn declare(rt: &impl Abort, script: &mut Page) {
    let mutex = Token::Text(b"mtx");
    for connection in 0..CONNECTIONS {
        add(rt, script, "lock", &[word(connection), mutex]);
    }
    for timer in 0..4 * CONNECTIONS {
        add(rt, script, "timer", &[word(timer), mutex, word(timer / 4)]);
    }
}

// A connection sets its timers, and stops the second.
fn connect(rt: &impl Abort, script: &mut Page, connection: u32)
    requires { connection < 1000 }
{
    add(rt, script, "lock", &[word(connection)]);
    for (timer, span) in &SPANS {
        let words = [
            Token::Number(4 * u64::from(connection) + u64::from(*timer)),
            Token::Text(span.as_bytes()),
            Token::Lettered(b'f', u64::from(*timer)),
            Token::Lettered(b'a', u64::from(connection)),
            Token::Text(b"cpu"),
            word(connection % CPUS),
        ];
        add(rt, script, "reset", &words);
    }
    add(rt, script, "stop", &[word(4 * connection + 1)]);
    add(rt, script, "unlock", &[]);
}

// A client has every eighth connection.
fn client(rt: &impl Abort, script: &mut Page, number: u32) {
    add(rt, script, "client", &[word(number)]);
    for connection in 0..CONNECTIONS {
        if connection % CLIENTS == number {
            connect(rt, script, connection);
        }
    }
}

// A CPU ticks ten times a second for two seconds.
const TICKS: &str = "tick 0.1
tick 0.2
tick 0.3
tick 0.4
tick 0.5
tick 0.6
tick 0.7
tick 0.8
tick 0.9
tick 1.0
tick 1.1
tick 1.2
tick 1.3
tick 1.4
tick 1.5
tick 1.6
tick 1.7
tick 1.8
tick 1.9
tick 2.0
";

// The ticks of a CPU.
fn cpu(rt: &impl Abort, script: &mut Page, number: u32) {
    add(rt, script, "cpu", &[word(number)]);
    script.text(TICKS.as_bytes()).expect(rt, "no memory");
}

// What stands before the locks and the timers: a version, four CPUs and four functions.
const HEAD: &str = "callout 1
cpus 4
funcs 4
";

// The one function that does something.
const FUNCTION: &str = "func 0
schedule me +0.4
";

// The whole script, behind what stands there.
fn write_ordinary(rt: &impl Abort, script: &mut Page) {
    script.text(HEAD.as_bytes()).expect(rt, "no memory");
    declare(rt, script);
    script.text(FUNCTION.as_bytes()).expect(rt, "no memory");
    for number in 0..CLIENTS {
        client(rt, script, number);
    }
    for number in 0..CPUS {
        cpu(rt, script, number);
    }
}

/// The script of 200 connections on 4 CPUs, which 8 clients set up.
pub fn ordinary_script(rt: &impl Abort, alloc: Global) -> Seq<u8> {
    let mut script = Page::new(alloc);
    write_ordinary(rt, &mut script);
    script.done().expect(rt, "no memory")
}
