//! Tests of the crates that know no message of the protocol: the trusted counter, windows, gates, pieces of long messages, and the outside.
#![tactic(auto)]

#[cfg(test)]
mod edge;
#[cfg(test)]
mod frag;
#[cfg(test)]
mod gate;
#[cfg(test)]
mod usig;
#[cfg(test)]
mod window;
