//! Worlds, walks, counts and draws: the core and the generator, by texts of scripts.
mod counts;
mod generated;
mod walks;
mod worlds;

/// A client arms the callout for the other CPU, and another stops it.
const IN_TRANSIT: &str = "callout 1
cpus 2
funcs 1
timer 0 mpsafe
client 0
reset 0 =1 f0 a0 cpu 1
client 1
stop 0
";
