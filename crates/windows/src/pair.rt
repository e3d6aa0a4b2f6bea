//! The pair test: two lines stay apart, or are too long to stay apart at any offsets.

ghost use Rattle.std.specs.Prelude.{◌≡◌, ◌<◌, true, false, Decides};
ghost use Rattle.windows.specs.Windows.{Meet, Periodic, gap_of, apart_lines, roomy_lines, Crowded, Room};

use crate::euclid::gcd;
use model::line::Line;

// No window of the one ever shares a unit with a window of the other.
pub fn apart(a: &Line, b: &Line) -> bool
    ensures value { result ≡ apart_lines a.now b.now }
    ensures meaning { Periodic a.now → Periodic b.now → Decides result (Meet a.now b.now → ⊥) }
{
    let p = gcd(a.period, b.period);
    if p == 0 {
        return false;
    }
    let behind = gap(a, b, p) as u64;
    a.length as u64 <= behind && behind + b.length as u64 <= p as u64
}

// Where the two are not roomy, no offsets keep them apart; where they are, some do.
#[tactic(auto, using(crate::proofs::Room::too_long, crate::proofs::Room::next_to))]
pub fn roomy(a: &Line, b: &Line) -> bool
    ensures value { result ≡ roomy_lines a.now b.now }
    ensures meaning { result ≡ false → Crowded a.now b.now }
    ensures offsets { result ≡ true → Periodic a.now → Periodic b.now → Room a.now b.now }
{
    a.length as u64 + b.length as u64 <= gcd(a.period, b.period) as u64
}

// How far the windows of b begin behind those of a, multiples of p aside. It compares in place of a third division:
// the search for offsets asks for it most.
fn gap(a: &Line, b: &Line, p: u32) -> u32
    requires { 0 < p }
    ensures { result ≡ gap_of a.now b.now p }
{
    let from = a.offset % p;
    let to = b.offset % p;
    if from <= to {
        to - from
    } else {
        to + (p - from)
    }
}
