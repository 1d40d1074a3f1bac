//! Tests of backends of devices and of programs of telephone lines: child programs, the codec, cards and exchanges.
//! They show what no contract says, on examples worked by hand.
#![tactic(auto)]

#[cfg(test)]
mod tests;
