//! From a plan to a run: the step of the processor, the calls between steps, and the rehearsal.

#![tactic(auto)]

mod between;
pub mod executive;
mod printed;
pub mod questions;
pub mod rehearsal;
pub mod slot;
mod slots;
mod step;
mod task;
mod tracks;
