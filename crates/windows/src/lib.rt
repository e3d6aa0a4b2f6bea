//! When the windows of two lines never share a unit: Euclid's rule, and the pair test that rests on it.

#![tactic(auto)]

pub mod euclid;
pub mod pair;
