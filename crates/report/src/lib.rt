//! What the planning program prints, written into a buffer of the caller's.

#![tactic(auto)]

pub mod desk;
mod lines;
mod page;
