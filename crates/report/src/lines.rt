//! The lines of a report, each put on a page. Each asks for the room that its own text needs.

ghost use Rattle.std.specs.Prelude.{◌≡◌, ◌+◌, ◌≤◌, [], ◌∷◌, ◌++◌, length};
ghost use Rattle.model.specs.Faults.{fault_text};
ghost use Rattle.report.specs.Pages.{Room, Wrote};
ghost use Rattle.report.specs.Printed.{code_figures, cycle_line, kind_word, task_figures, task_line, task_lines, plan_text};
ghost use Rattle.report.specs.Printed.{passed_line, fault_line, verdict_line, verdict_room, outcome_text};

use crate::page::Page;
use model::fault::{Fault, FaultCode};
use model::kind::Kind;
use model::line::Line;

fn cycle_line(page: &mut Page, hyperperiod: u32)
    requires { Room page.old (cycle_line hyperperiod) }
    ensures { Wrote page.old page.new (cycle_line hyperperiod) }
{
    page.row(b"H", &[hyperperiod as u64]);
}

// Bytes for the page and no `Display`, which may fail where a report must not.
fn kind_word(kind: Kind) -> &'static [u8]
    ensures { result.now ≡ kind_word kind }
{
    match kind {
        Kind::Ordinary => b" N",
        Kind::Regular => b" R",
    }
}

fn task_figures(line: &Line) -> [u64; 4]
    ensures { result ≡ task_figures line.now }
{
    [
        line.offset as u64,
        line.length as u64,
        line.deadline as u64,
        line.period as u64,
    ]
}

fn task_line(page: &mut Page, number: u64, line: &Line)
    requires { Room page.old (task_line number line.now) }
    ensures { Wrote page.old page.new (task_line number line.now) }
{
    page.number(number);
    page.row(kind_word(line.kind), &task_figures(line));
}

// Lines are counted from 1.
fn task_lines(page: &mut Page, lines: &[Line])
    requires { Room page.old (task_lines 1 lines.now) }
    ensures { Wrote page.old page.new (task_lines 1 lines.now) }
{
    for (i, line) in lines.iter().enumerate() {
        task_line(page, i as u64 + 1, line);
    }
}

// The plan: its hyperperiod, then its lines.
fn plan_text(page: &mut Page, hyperperiod: u32, lines: &[Line])
    requires { Room page.old (plan_text hyperperiod lines.now) }
    ensures { Wrote page.old page.new (plan_text hyperperiod lines.now) }
{
    cycle_line(page, hyperperiod);
    task_lines(page, lines);
}

fn passed_line(page: &mut Page)
    requires { Room page.old passed_line }
    ensures { Wrote page.old page.new passed_line }
{
    page.row(b"passed", &[]);
}

// A fault's figures fit 64 bits, so that no bound on them is asked for.
fn code_figures(code: &FaultCode) -> [u64; 4]
    ensures { result ≡ code_figures code.now }
{
    [
        code.number as u64,
        code.layer as u64,
        code.first,
        code.second,
    ]
}

// As the fault prints itself, and the byte that ends the line.
pub(crate) fn fault_line(page: &mut Page, fault: Fault)
    requires { page.old.at + verdict_room ≤ length page.old.out.now }
    ensures wrote { Wrote page.old page.new (fault_line fault) }
    ensures short { length (fault_line fault) ≤ verdict_room }
    ensures printed { fault_line fault ≡ fault_text fault ++ 10 ∷ [] }
{
    page.row(b"fault", &code_figures(&fault.code()));
}

// The rehearsal: it passed, or its fault.
fn verdict_line(page: &mut Page, fault: Option<Fault>)
    requires { page.old.at + verdict_room ≤ length page.old.out.now }
    ensures wrote { Wrote page.old page.new (verdict_line fault) }
    ensures short { length (verdict_line fault) ≤ verdict_room }
{
    match fault {
        None => passed_line(page),
        Some(fault) => fault_line(page, fault),
    }
}

// The plan, then what its rehearsal came to.
pub(crate) fn outcome_text(page: &mut Page, hyperperiod: u32, lines: &[Line], fault: Option<Fault>)
    requires { page.old.at + (length (plan_text hyperperiod lines.now) + verdict_room) ≤ length page.old.out.now }
    ensures wrote { Wrote page.old page.new (outcome_text hyperperiod lines.now fault) }
    ensures short { length (outcome_text hyperperiod lines.now fault) ≤ length (plan_text hyperperiod lines.now) + verdict_room }
{
    plan_text(page, hyperperiod, lines);
    verdict_line(page, fault);
}
