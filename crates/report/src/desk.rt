//! The desk of the planning engineer: a place for the sheet and one for the plan, and the one call
//! that reads, plans, rehearses and prints.

ghost use Rattle.std.specs.Prelude.{◌≡◌, ◌+◌, ◌≤◌, length, IfOk, MatchResult};
ghost use Rattle.std.specs.Result.{result_err};
ghost use Rattle.model.specs.TaskSets.{no_tasks, Filled};
ghost use Rattle.model.specs.declared.fault.Fault.TheVariants.{NoMemory};
ghost use Rattle.sheet.specs.Reading.{read_sheet};
ghost use Rattle.report.specs.Desks.{plan_held, sheet_held};
ghost use Rattle.report.specs.Pages.{Wrote};
ghost use Rattle.report.specs.Reports.{buffer_least, buffer_of, held_after, kept_or, planned_from, rehearsed, reply_of, report_of};

use crate::lines::{fault_line, outcome_text};
use crate::page::Page;
use executive::rehearsal::rehearse;
use model::fault::Fault;
use planning::plan::Plan;
use sheet::sheet::Sheet;
use std::alloc::Global;

const BUFFER_LEAST: usize = 1024;

#[derive(Drop)]
pub struct Desk {
    sheet: Sheet,
    plan: Plan,
}

impl Desk {
    // Two new places. This is the one call that asks for memory.
    pub fn new(heap: Global) -> Result<Desk, Fault>
        ensures { MatchResult result (λ d. (sheet_held d ≡ no_tasks) × (plan_held d ≡ no_tasks)) (λ e. e ≡ NoMemory) }
    {
        Ok(Desk {
            sheet: Sheet::new(heap)?,
            plan: Plan::new(heap)?,
        })
    }

    // Reads a text and plans it.
    fn prepare(&mut self, text: &[u8]) -> Result<(), Fault>
        ensures sheet { sheet_held self.new ≡ kept_or (read_sheet text.now) (sheet_held self.old) }
        ensures plan { Filled result (planned_from text.now) (plan_held self.old) (plan_held self.new) }
    {
        self.sheet.read(text)?;
        self.plan.plan(&self.sheet)
    }

    // The fault that a rehearsal under the ranking of the plan's policy comes to, if it does.
    fn verdict(&self) -> Option<Fault>
        ensures { result ≡ result_err (rehearsed (plan_held self.now)) }
    {
        rehearse(&self.plan, &self.plan.policy()).err()
    }

    // Puts the report of a text on a page that has room for every report.
    fn put_report(&mut self, page: &mut Page, text: &[u8])
        requires { page.old.at + buffer_least ≤ length page.old.out.now }
        ensures wrote { Wrote page.old page.new (report_of text.now) }
        ensures short { length (report_of text.now) ≤ buffer_least }
        ensures sheet { sheet_held self.new ≡ kept_or (read_sheet text.now) (sheet_held self.old) }
        ensures plan { plan_held self.new ≡ kept_or (planned_from text.now) (plan_held self.old) }
    {
        match self.prepare(text) {
            Ok(()) => {
                let verdict = self.verdict();
                outcome_text(page, self.plan.hyperperiod(), self.plan.lines(), verdict);
            }
            Err(fault) => fault_line(page, fault),
        }
    }

    // The one call behind the planning program: it says how many bytes of the buffer it has written. A
    // buffer under 1,024 bytes is refused before the text is looked at.
    pub fn print(&mut self, text: &[u8], out: &mut [u8]) -> Result<usize, Fault>
        ensures reply { result ≡ reply_of out.old (report_of text.now) }
        ensures fits { IfOk result (λ n. n ≤ buffer_least) }
        ensures bytes { out.new ≡ buffer_of out.old (report_of text.now) }
        ensures sheet { sheet_held self.new ≡ held_after out.old (read_sheet text.now) (sheet_held self.old) }
        ensures plan { plan_held self.new ≡ held_after out.old (planned_from text.now) (plan_held self.old) }
    {
        if out.len() < BUFFER_LEAST {
            return Err(Fault::BufferTooSmall);
        }
        let mut page = Page { out, at: 0 };
        self.put_report(&mut page, text);
        Ok(page.at)
    }
}
