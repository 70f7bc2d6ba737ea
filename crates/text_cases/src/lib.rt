//! Worked values of what is read and written, ends, pages, scripts, reports and verdicts, and of the core and the generator, each by what is public.
#![tactic(auto)]

#[cfg(test)]
mod tests;
