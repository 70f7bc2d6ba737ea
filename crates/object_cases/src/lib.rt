//! Worked cases of times, callouts, queues, locks, programs, handlers and the calls of a C program, as tests.
#![tactic(auto)]

#[cfg(test)]
mod tests;
