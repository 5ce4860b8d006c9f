//! Tests of keys with values.
#![tactic(auto)]

#[cfg(test)]
mod kv;
