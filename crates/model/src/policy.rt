//! The policy that line 0 of a sheet names: it changes deadlines and names the ranking.

#[derive(Clone, Copy, PartialEq, Eq, Debug)]
pub enum Policy {
    // deadline monotonic
    Dm,
    // earliest deadline
    Ed,
}
