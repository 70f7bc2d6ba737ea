//! Scripts that run on threads over a running service, and the verdicts on their reports.
#![tactic(auto)]

#[cfg(test)]
mod tests;
