//! The vocabulary of the product: kinds, policies, lines, jobs, faults and rankings.
//! Everything here is plain values; the layers above give them their rules.

#![tactic(auto)]

pub mod fault;
pub mod job;
pub mod kind;
pub mod line;
pub mod policy;
pub mod ranking;
pub mod rankings;
pub mod tasks;
#[cfg(test)]
mod tests;
