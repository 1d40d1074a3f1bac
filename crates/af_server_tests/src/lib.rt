//! Tests of scripts, of what is outside of a server in memory, and of the server over a tape: what their contracts do not say, on
//! examples worked by hand.
#![tactic(auto)]

#[cfg(test)]
mod tests;
