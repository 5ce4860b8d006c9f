//! Tests of the tables in which a host holds what it knows of the protocol, and of the certificates that they are asked for.
#![tactic(auto)]

#[cfg(test)]
mod cert;
#[cfg(test)]
mod change;
#[cfg(test)]
mod fetch;
#[cfg(test)]
mod kept;
#[cfg(test)]
mod log;
#[cfg(test)]
mod normal;
#[cfg(test)]
mod samples;
#[cfg(test)]
mod votes;
