//! A line under way as the executive keeps it: with its next release at hand, so that no step has to
//! divide, and with what its starts came to.

ghost use Rattle.std.specs.Prelude.{◌≡◌, ◌+◌, ◌^◌, ◌<◌, ◌≤◌};
ghost use Rattle.model.specs.Ranges.{Ranged};
ghost use Rattle.runs.specs.Jitter.{no_track};
ghost use Rattle.runs.specs.Tasks.{admitted, job_of, new_task};
ghost use Rattle.executive.specs.Changes.{counts_of};
ghost use Rattle.executive.specs.Slots.{coming_at, IsComing, Kept};

use crate::task::{admit, is_pending, new_task};
use model::job::Job;
use model::line::Line;
use runs::call::CountsReport;
use runs::jitter::Track;
use runs::task::Task;

// `next` is the line's first release at or after the next step.
#[derive(Clone, Copy, Default)]
pub struct Slot {
    pub task: Task,
    pub next: u64,
    pub track: Track,
}

// The first release at or after `t`.
fn coming(line: &Line, t: u64) -> u64
    requires { (Ranged line.now) × (t ≤ 10 ^ 12) }
    ensures { result ≡ coming_at line.now t }
{
    let offset = line.offset as u64;
    let period = line.period as u64;
    if t <= offset {
        return offset;
    }
    offset + (t - offset + (period - 1)) / period * period
}

impl Slot {
    // Before the step at `start`, with no job and no start.
    pub(crate) fn new(number: u32, line: Line, start: u64) -> Slot
        requires { (Ranged line) × (start ≤ 10 ^ 12) }
        ensures task { result.task ≡ new_task number line }
        ensures next { result.next ≡ coming_at line start }
        ensures coming { IsComing line start result.next }
        ensures track { result.track ≡ no_track }
        ensures kept { Kept start result }
    {
        Slot {
            task: new_task(number, line),
            next: coming(&line, start),
            track: Track::default(),
        }
    }

    // Meets the release at `t`, if the line has one: a line that is not at rest gets its job.
    pub(crate) fn release_at(&mut self, t: u64)
        requires { (Ranged self.old.task.line) × ((self.old.next ≡ coming_at self.old.task.line t) × ((self.old.task.counts.made ≤ t) × (t < 10 ^ 12))) }
        ensures { self.new ≡ record self.old { task = admitted t self.old.task; next = coming_at self.old.task.line (t + 1) } }
    {
        if self.next != t {
            return;
        }
        self.next += self.task.line.period as u64;
        if !self.task.resting {
            admit(&mut self.task, t);
        }
    }
}

impl From<&Slot> for Job {
    ghost from_gives = { λ slot job. job ≡ job_of slot.now.task };

    fn from(slot: &Slot) -> Job {
        Job {
            line: slot.task.number,
            kind: slot.task.line.kind,
            release: slot.task.release,
            deadline: slot.task.line.deadline,
            period: slot.task.line.period,
        }
    }
}

// What became of the line's jobs.
impl From<&Slot> for CountsReport {
    ghost from_gives = { λ slot report. report ≡ counts_of slot.now.task };

    fn from(slot: &Slot) -> CountsReport {
        CountsReport {
            made: slot.task.counts.made,
            ended: slot.task.counts.ended,
            missed: slot.task.counts.missed,
            aside: slot.task.counts.aside,
            pending: is_pending(&slot.task) as u64,
        }
    }
}
