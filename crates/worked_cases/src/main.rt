//! The worked scripts, each with its report: those of data/cases, whose reports are worked out by hand, and those of examples/.
//!
//! `steps` of a script has to write exactly its report, `check` to call the report legal, and `run` to write a report that `check`
//! calls legal. A script for which all of this holds is named in a line. Of the tables of data/broken each line changes a report in one place, and
//! `check` has to say of it what the line says; a table for which this holds is named with the number of its changes.
#![tactic(auto)]

mod call;
mod changes;
mod names;

use crate::call::{is_legal, is_run, says};
use crate::changes::count_judged;
use crate::names::{BROKEN, Broken, WORKED};
use co_top::Status;
use std::fs::{self, Files};
use std::process::ExitCode;
use std::sync::Wait;
use std::thread::Threads;

/// Whether `steps` writes this report for the script, and the reports of `steps` and of `run` are legal.
fn is_worked<R: AllocGlobal + Threads + Wait + Sync>(rt: &R, script: &[u8], report: &[u8]) -> bool {
    says(rt, "steps", script, Status::Done, report) && is_legal(rt, report) && is_run(rt, script)
}

/// What stands in the file of this name and end, if it can be read.
fn text_of<R: AllocGlobal + Files>(rt: &R, name: &str, end: &str) -> Option<String> {
    let path = format!(in rt.alloc(); "{name}.{end}").ok()?;
    fs::read_to_string(rt, path.as_str()).ok()
}

/// Whether the script of this name is as its report says.
fn is_worked_at<R: AllocGlobal + Files + Threads + Wait + Sync>(rt: &R, name: &str) -> bool {
    let Some(script) = text_of(rt, name, "callout") else {
        return false;
    };
    match text_of(rt, name, "report") {
        Some(report) => is_worked(rt, script.as_bytes(), report.as_bytes()),
        None => false,
    }
}

/// Whether all changes of a report are judged as its table says.
fn is_judged_at<R: AllocGlobal + Files + Threads + Wait + Sync>(rt: &R, broken: &Broken) -> bool {
    let Some(report) = text_of(rt, broken.report, "report") else {
        return false;
    };
    match text_of(rt, broken.table, "changes") {
        Some(table) => count_judged(rt, report.as_bytes(), table.as_bytes()) == broken.changes,
        None => false,
    }
}

/// Names what holds in a line. False where it does not hold, or the line is not written.
fn name_if<R: Print>(rt: &R, name: &str, holds: bool) -> bool {
    holds && println!(rt; "{name}").is_ok()
}

/// Goes through the scripts, and names those that are as they have to be. Whether all are.
fn are_worked<R: AllocGlobal + Files + Print + Threads + Wait + Sync>(rt: &R) -> bool {
    let mut all = true;
    for name in WORKED {
        all = name_if(rt, name, is_worked_at(rt, name)) && all;
    }
    all
}

/// Goes through the tables of changes, and names those of which each is judged as it says. Whether all are.
fn are_judged<R: AllocGlobal + Files + Print + Threads + Wait + Sync>(rt: &R) -> bool {
    let mut all = true;
    for broken in BROKEN {
        all = name_if(rt, broken.line, is_judged_at(rt, broken)) && all;
    }
    all
}

fn main(rt: HostRuntime) -> ExitCode {
    let worked = are_worked(&rt);
    if are_judged(&rt) && worked {
        ExitCode::SUCCESS
    } else {
        ExitCode::FAILURE
    }
}
