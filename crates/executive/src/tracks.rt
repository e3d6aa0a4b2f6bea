//! When the lines' jobs start, and what the starts come to.

ghost use Rattle.std.specs.Prelude.{◌≡◌, ◌+◌, ◌^◌, ◌<◌, ◌≤◌, max, length};
ghost use Rattle.std.specs.Option.{ForSome};
ghost use Rattle.runs.specs.Jitter.{start_at, deviation as deviation_of, noted, note_start, note_unit, track_figures};
ghost use Rattle.executive.specs.Slots.{Tracked, AllTracked, tasks_of, tracks_of};

use crate::slot::Slot;
use crate::slots::Slots;
use model::line::Line;
use runs::call::{StepReport, UnitReport};
use runs::jitter::{Figures, Start, Track};

// A job of the line starts at `t`; none starts before the line's offset.
fn start_at(line: &Line, t: u64) -> Start
    requires { 0 < line.now.period }
    ensures { result ≡ start_at line.now t }
{
    Start {
        round: t.saturating_sub(line.offset as u64) / line.period as u64,
        instant: t,
    }
}

// How far two starts that follow each other lie from being a period apart.
fn deviation(line: &Line, a: Start, b: Start) -> u64
    requires { a.instant ≤ b.instant }
    ensures { result ≡ deviation_of line.now a b }
{
    (b.instant - a.instant).abs_diff(line.period as u64)
}

fn add_deviation(track: &mut Track, deviation: u64)
    requires { (track.old.number ≤ 10 ^ 12) × ((track.old.sum ≤ 10 ^ 17) × (deviation ≤ 10 ^ 17)) }
    ensures { track.new ≡ record track.old { number = track.old.number + 1; sum = track.old.sum + deviation; largest = max track.old.largest deviation } }
{
    track.number += 1;
    track.sum += deviation;
    track.largest = track.largest.max(deviation);
}

// One start more of a line's jobs.
fn note(track: &mut Track, line: &Line, start: Start)
    requires tracked { Tracked start.instant line.now track.old }
    requires period { line.now.period ≤ 60000 }
    requires early { start.instant < 10 ^ 12 }
    ensures { track.new ≡ noted line.now start track.old }
{
    if let Some(before) = track.last.replace(start) {
        add_deviation(track, deviation(line, before, start));
    }
}

impl Slot {
    // The line's jitter figures.
    pub(crate) fn figures(&self) -> Figures
        requires { (self.now.track.number ≤ 10 ^ 12) × ((self.now.track.sum ≤ 10 ^ 17) × (self.now.task.line.period ≤ 60000)) }
        ensures { result ≡ track_figures self.now.task.line self.now.track }
    {
        Figures {
            number: self.track.number,
            sum: self.track.sum,
            largest: self.track.largest,
            numerator: 100 * self.track.sum,
            denominator: self.track.number * self.task.line.period as u64,
        }
    }
}

impl Slots {
    // A unit at `t` that began a job adds a start to its line.
    fn note_unit(&mut self, unit: UnitReport, t: u64)
        requires line { (0 < unit.line) × (unit.line ≤ length self.old.list.items) }
        requires tracked { AllTracked t self.old.list.items }
        requires early { t < 10 ^ 12 }
        ensures clock { self.new.clock ≡ self.old.clock }
        ensures tasks { tasks_of self.new.list.items ≡ tasks_of self.old.list.items }
        ensures tracks { tracks_of self.new.list.items ≡ note_unit t unit (tasks_of self.old.list.items) (tracks_of self.old.list.items) }
        ensures tracked { AllTracked (t + 1) self.new.list.items }
    {
        if unit.began {
            let slot = &mut self.list.as_mut_slice()[unit.line as usize - 1];
            note(
                &mut slot.track,
                &slot.task.line,
                start_at(&slot.task.line, t),
            );
        }
    }

    // The same for the unit of a step at `t`, if it was anyone's.
    pub(crate) fn note_start(&mut self, report: StepReport, t: u64)
        requires line { ForSome report.unit (λ u. (0 < u.line) × (u.line ≤ length self.old.list.items)) }
        requires tracked { AllTracked t self.old.list.items }
        requires early { t < 10 ^ 12 }
        ensures clock { self.new.clock ≡ self.old.clock }
        ensures tasks { tasks_of self.new.list.items ≡ tasks_of self.old.list.items }
        ensures tracks { tracks_of self.new.list.items ≡ note_start t report (tasks_of self.old.list.items) (tracks_of self.old.list.items) }
        ensures tracked { AllTracked (t + 1) self.new.list.items }
    {
        if let Some(unit) = report.unit {
            self.note_unit(unit, t);
        }
    }
}
