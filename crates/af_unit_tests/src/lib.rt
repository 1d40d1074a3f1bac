//! Tests of the parts that stand alone, from device time to telephone lines: what their contracts do not say, on examples worked
//! by hand and of other implementations.
#![tactic(auto)]

#[cfg(test)]
mod tests;
