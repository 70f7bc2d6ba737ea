//! What is fixed of a service.
use co_object::Spec;
use co_sbt::Seq;

/// What is fixed of a service when it is booted. The limits are our own.
#[derive(Drop)]
pub struct Params {
    /// The version of what it does, 1 or 2 (our own). From 2 on a CPU's interrupt scans, and services the direct
    /// callouts.
    pub version: u32,
    /// The number of clients, 0 to 16.
    pub clients: u32,
    /// The number of CPUs, 1 to 16.
    pub cpus: u32,
    /// The number of buckets of each CPU's wheel, a power of two from 16 to 65536.
    pub buckets: u32,
    /// What is fixed of the callouts, by their numbers: 1 to 1024. A callout without a lock does not release it, a
    /// direct one has no lock, and version 1 has no direct one.
    pub specs: Seq<Spec>,
}
