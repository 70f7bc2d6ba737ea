//! The program `callout_view`: the views of a report over standard input and standard output.
#![tactic(auto)]

use co_front::words;
use co_io::{FileSink, FileSource};
use co_view_top::{Status, view_main};
use std::process::ExitCode;

/// Where there is no memory for the words, nothing is written.
fn main(rt: HostRuntime) -> ExitCode {
    let status = match words(&rt) {
        Ok(words) => {
            let mut source = FileSource::new(rt.stdin());
            let mut sink = FileSink::new(rt.stdout());
            view_main(rt.alloc(), words.as_slice(), &mut source, &mut sink)
        }
        Err(_) => Status::NoMemory,
    };
    ExitCode::from(status.exit_status())
}
