//! Tests of how a service is used: what clients ask for and count, what a host executes and keeps of it, the journal of its events, the long schedules
//! in which both are drawn, and what is found of hosts afterwards.
#![tactic(auto)]

#[cfg(test)]
mod audit;
#[cfg(test)]
mod cache;
#[cfg(test)]
mod client;
#[cfg(test)]
mod journal;
#[cfg(test)]
mod keeper;
#[cfg(test)]
mod make;
#[cfg(test)]
mod samples;
