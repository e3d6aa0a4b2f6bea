//! From a sheet to a plan: the hyperperiod, offsets for the regular lines, deadlines.

#![tactic(auto)]

mod deadlines;
mod hyperperiod;
mod offsets;
pub mod plan;
mod steps;
