//! Tests of the client library and of the tools over links in memory: what their contracts do not say, on examples worked by
//! hand.
#![tactic(auto)]

#[cfg(test)]
mod tests;
