//! What is measured from outside, by the time of whole runs: the two timer queues, the core and the running service.
//!
//! - `queues QUEUE CALLOUTS BUCKETS ARMINGS STEP` arms, stops and scans one queue, `list` or `wheel`. Time goes on by STEP units
//!   from one arming to the next.
//! - `walk` reads a script from standard input and runs it as `callout steps` does, without a report. `walk read` only reads
//!   it, so that the difference is the run.
//! - `world` reads a script and steps its world by its turns and then by round robin. A step that is refused memory is made
//!   again; it counts those steps too.
//! - `service WHAT WHERE THREADS CALLS` lets threads call one running service. Where WHAT is `service` each thread resets and
//!   stops callouts of its own in turn, CALLS of each, with calls that tell in few words what they did. In `notes` these
//!   answer with their notes, in `moves` each reset sends its callout to another CPU, and in `shared` all threads call the
//!   same callouts. In `mutex` each adds as often to a counter behind a lock. WHERE is `apart`, each thread at a CPU or a
//!   lock of its own, or `one`, all at the same.
//!
//! Without a word each is run once and briefly. It writes counts alone, once all are made. The exit statuses are those of
//! `callout`.
#![tactic(auto)]

mod counter;
mod failed;
mod hammer;
mod input;
mod lines;
mod queues;
mod tasks;
mod walk;
mod words;
mod work;
mod world;

use crate::failed::Failed;
use crate::tasks::text_of;
use co_front::words;
use co_io::{FileSink, FileSource, write_all};
use std::process::ExitCode;

fn main(rt: HostRuntime) -> ExitCode {
    let mut source = FileSource::new(rt.stdin());
    let counted = match words(&rt) {
        Ok(words) => text_of(&rt, rt.alloc(), &mut source, words.as_slice()),
        Err(_) => Err(Failed::NoMemory),
    };
    let mut sink = FileSink::new(rt.stdout());
    let status = match counted {
        Ok(text) => match write_all(&mut sink, text.as_slice()) {
            Ok(()) => 0,
            Err(_) => Failed::Output.exit_status(),
        },
        Err(failed) => failed.exit_status(),
    };
    ExitCode::from(status)
}
