//! Worked texts of the commands `event`, `kq`, `itimer` and `sleep` and worked calls of what they are built on, each by what is
//! public.
#![tactic(auto)]

#[cfg(test)]
mod tests;
