//! The program `callout`: the top call over standard input and standard output.
#![tactic(auto)]

use co_front::words;
use co_hand::OpenGate;
use co_io::{FileSink, FileSource};
use co_top::{Status, callout_main};
use std::process::ExitCode;

/// Where there is no memory for the words, nothing is written.
fn main(rt: HostRuntime) -> ExitCode {
    let status = match words(&rt) {
        Ok(words) => {
            let mut source = FileSource::new(rt.stdin());
            let mut sink = FileSink::new(rt.stdout());
            let finish = callout_main(
                &rt,
                rt.alloc(),
                words.as_slice(),
                &mut source,
                &mut sink,
                &OpenGate {},
            );
            finish.status
        }
        Err(_) => Status::NoMemory,
    };
    ExitCode::from(status.exit_status())
}
