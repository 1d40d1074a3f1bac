//! Tests of the real world: sockets on the loopback, files, the system's clock, and readers and writers of std.
#![tactic(auto)]

#[cfg(test)]
mod tests;
