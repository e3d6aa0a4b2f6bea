//! Offsets for the regular lines, so that their windows never meet.

ghost use Rattle.std.specs.Prelude.{◌≡◌, ℕ, ◌+◌, ◌<◌, ◌≤◌, [], ◌∷◌, ◌++◌, length, if◌then◌else◌, Some, None};
ghost use Rattle.std.specs.Bool.{OnFalse};
ghost use Rattle.std.specs.List.{filter};
ghost use Rattle.model.specs.Ranges.{is_regular, regulars};
ghost use Rattle.planning.specs.Offsets.{short_pair, FirstNeverApart, clear_of, place as place_of, put_back};

use arrayvec::ArrayVec;
use model::line::Line;
use windows::pair::{apart, roomy};

// The numbers of the first two regular lines that no offsets keep apart. Nested loops, left by a label
// with the pair, are the form that is fixed for this test. The lines are a slice with its bound, as a sheet lends them.
pub(crate) fn short_pair(lines: &[Line]) -> Option<(u32, u32)>
    requires { length lines.now ≤ 24 }
    ensures first { result ≡ short_pair 1 lines.now }
    ensures never { (pair : ℕ × ℕ) → result ≡ Some pair → FirstNeverApart lines.now pair }
{
    'pairs: {
        for (i, a) in lines.iter().enumerate() {
            if !a.is_regular() {
                continue;
            }
            for (j, b) in lines.iter().enumerate().skip(i + 1) {
                if b.is_regular() && !roomy(a, b) {
                    break 'pairs Some((i as u32 + 1, j as u32 + 1));
                }
            }
        }
        None
    }
}

// The line meets no regular line of those placed.
fn clear(placed: &[Line], line: &Line) -> bool
    ensures { result ≡ clear_of placed.now line.now }
{
    placed
        .iter()
        .all(|other| !other.is_regular() || apart(other, line))
}

// Backtracking: the lines left get their offsets one by one, the smallest first, and back to the
// line before where a line has none left. Where that finds nothing, `placed` is as it was. One vector
// grows and shrinks along the search: an `Option` of it by value would be a copy for each candidate, and a closure
// for `any` would hide that it changes.
#[cycle(place)]
fn place<const N: usize>(placed: &mut ArrayVec<Line, N>, left: &[Line]) -> bool
    requires { length placed.old.items + length left.now ≤ N }
    ensures found { place_of placed.old.items left.now ≡ (if result then Some placed.new.items else None) }
    ensures kept { OnFalse result (placed.new.items ≡ placed.old.items) }
{
    let Some((line, rest)) = left.split_first() else {
        return true;
    };
    if !line.is_regular() {
        return place_behind(placed, *line, rest);
    }
    for offset in 0..line.period {
        let moved = Line { offset, ..*line };
        if clear(placed, &moved) && place_behind(placed, moved, rest) {
            return true;
        }
    }
    false
}

// The line is placed as it is, and then those left behind it.
#[cycle(place)]
fn place_behind<const N: usize>(placed: &mut ArrayVec<Line, N>, line: Line, left: &[Line]) -> bool
    requires { length placed.old.items + length left.now < N }
    ensures found { place_of (placed.old.items ++ line ∷ []) left.now ≡ (if result then Some placed.new.items else None) }
    ensures kept { OnFalse result (placed.new.items ≡ placed.old.items) }
{
    placed.push(line);
    let found = place(placed, left);
    if !found {
        placed.pop();
    }
    found
}

// The regular lines, in sheet order. A loop, as is the next: `collect` into an `ArrayVec` gives a `Result`, though
// there is always room.
fn regular_lines(lines: &[Line]) -> ArrayVec<Line, 8>
    requires { regulars lines.now ≤ 8 }
    ensures { result.items ≡ filter is_regular lines.now }
{
    let mut regular = ArrayVec::new();
    for line in lines {
        if line.is_regular() {
            regular.push(*line);
        }
    }
    regular
}

// All lines in their places, the regular ones as they were placed.
fn put_back(lines: &mut ArrayVec<Line, 24>, all: &[Line], placed: &[Line])
    requires { length lines.old.items + length all.now ≤ 24 }
    ensures { lines.new.items ≡ lines.old.items ++ put_back all.now placed.now }
{
    let mut left = placed;
    for line in all {
        match left.split_first() {
            Some((moved, rest)) if line.is_regular() => {
                lines.push(*moved);
                left = rest;
            }
            _ => lines.push(*line),
        }
    }
}

// All lines with their offsets. Ordinary lines are in nobody's way, and a search over them too would come by each of
// them again for every candidate before it: the search goes over the regular lines alone.
pub(crate) fn place_lines(lines: &mut ArrayVec<Line, 24>, all: &[Line]) -> bool
    requires empty { lines.old.items ≡ [] }
    requires few { length all.now ≤ 24 }
    requires limited { regulars all.now ≤ 8 }
    ensures found { place_of [] all.now ≡ (if result then Some lines.new.items else None) }
    ensures kept { OnFalse result (lines.new.items ≡ lines.old.items) }
{
    let mut placed = ArrayVec::<Line, 8>::new();
    let found = place(&mut placed, &regular_lines(all));
    if found {
        put_back(lines, all, &placed);
    }
    found
}
