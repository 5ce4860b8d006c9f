//! Tests of the devices that the system gives: streams, sockets of this machine, child programs, and files. These tests alone bind ports.
#![tactic(auto)]

#[cfg(test)]
mod devices;
