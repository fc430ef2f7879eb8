//! The outside of the shell: hosts, sources and sinks, and those in memory.
#![tactic(auto)]

mod memory;
mod outside;
mod sending;

pub use memory::{Calls, MemoryHost, MemorySink, MemorySource};
pub use outside::{Failed, Host, HostErr, Sink, Source};
pub use sending::send;

#[cfg(test)]
mod tests;
