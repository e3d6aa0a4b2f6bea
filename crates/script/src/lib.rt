//! Runs an executive from a script: a sheet, a line `start T`, then one command a line, each answered by
//! a printed line. Every command is made of the calls that the firmware makes.

#![tactic(auto)]

pub mod batch;
mod command;
mod text;

pub use crate::batch::next_record;
use crate::command::Command;
use crate::text::{split_at_start, start_instant};
use executive::executive::Executive;
use executive::executive::batch::run;
use model::fault::Fault;
use model::ranking::Ranking;
use planning::plan::Plan;
use runs::call::{Accepted, Call, Reply};
use sheet::cutting::Lines;
use sheet::sheet::Sheet;
use std::fmt::Display;
use std::io;
use std::io::Write;

// Makes one call, prints its reply and hands it on.
fn make<R: Ranking>(
    rt: &HostRuntime,
    executive: &mut Executive<R>,
    call: Call,
) -> io::Result<Reply> {
    let clock = executive.clock();
    let reply = executive.take(call);
    match reply {
        Ok(Accepted::Step(report)) => println!(rt; "unit {clock} {report}")?,
        Ok(Accepted::Done) => println!(rt; "ok")?,
        Err(fault) => println!(rt; "{fault}")?,
    }
    Ok(reply)
}

// Steps one by one, and no further than the first refusal.
fn step_on<R: Ranking>(
    rt: &HostRuntime,
    executive: &mut Executive<R>,
    units: u64,
) -> io::Result<()> {
    for _ in 0..units {
        if make(rt, executive, Call::Step)?.is_err() {
            break;
        }
    }
    Ok(())
}

// Steps silently; says how many jobs were struck out, or the fault of the first refused step. The
// count saturates so that no proof needs a bound; steps end at clock 10^12, so it never comes to that. A `try_fold`
// over the units, of which the closure sees none, is no plainer.
fn run_on<R: Ranking>(executive: &mut Executive<R>, units: u64) -> Result<u64, Fault> {
    let mut struck: u64 = 0;
    for _ in 0..units {
        struck = struck.saturating_add(executive.step()?.struck as u64);
    }
    Ok(struck)
}

// The line is the script's own, of no type, so it has no `Display`.
fn print_run(rt: &HostRuntime, units: u64, struck: Result<u64, Fault>) -> io::Result<()> {
    match struck {
        Ok(struck) => println!(rt; "ran {units} {struck}"),
        Err(fault) => println!(rt; "{fault}"),
    }
}

// A printed line for each line of the plan; an executive is asked for a line by its number, from 1 on.
fn print_lines<T: Display + Drop, F: Fn(u64) -> Result<T, Fault>>(
    rt: &HostRuntime,
    lines: usize,
    told_of: F,
) -> io::Result<()>
    requires { F.IsAlwaysCallable told_of }
{
    for line in 1..=lines as u64 {
        if let Ok(told) = told_of(line) {
            println!(rt; "{line} {told}")?;
        }
    }
    Ok(())
}

fn print_answer<T: Display + Drop>(
    rt: &HostRuntime,
    question: &str,
    answer: Option<T>,
) -> io::Result<()> {
    match answer {
        Some(answer) => println!(rt; "{question} {answer}"),
        None => println!(rt; "{question} none"),
    }
}

// A line that is no command is shown as it came, whatever its bytes, so it has no `Display`.
fn print_unknown(rt: &HostRuntime, line: &[u8]) -> io::Result<()> {
    let mut output = rt.stdout();
    output.write_all(b"? ")?;
    output.write_all(line)?;
    output.write_all(b"\n")
}

// A `match` and no table of functions: the compiler sees that no command is left out.
fn answer<R: Ranking>(
    rt: &HostRuntime,
    executive: &mut Executive<R>,
    line: &[u8],
) -> io::Result<()> {
    let Some(command) = Command::parse(line) else {
        return print_unknown(rt, line);
    };
    match command {
        Command::Step(units) => step_on(rt, executive, units),
        Command::Run(units) => print_run(rt, units, run_on(executive, units)),
        Command::Call(call) => make(rt, executive, call).map(|_| ()),
        Command::Counts => print_lines(rt, executive.line_count(), |line| executive.counts(line)),
        Command::Figures => print_lines(rt, executive.line_count(), |line| executive.figures(line)),
        Command::Coming => print_answer(rt, "coming", executive.coming()),
        Command::Worst => print_answer(rt, "worst", executive.worst()),
    }
}

fn plan_of(rt: &HostRuntime, text: &[u8]) -> Result<Plan, Fault> {
    let mut sheet = Sheet::new(rt.alloc())?;
    sheet.read(text)?;
    let mut plan = Plan::new(rt.alloc())?;
    plan.plan(&sheet)?;
    Ok(plan)
}

// Plans the sheet, starts the plan under the ranking that it names, and answers the script behind it.
pub fn bench(rt: &HostRuntime, input: &[u8]) -> io::Result<()> {
    let (text, behind) = split_at_start(input);
    let plan = match plan_of(rt, text) {
        Ok(plan) => plan,
        Err(fault) => return println!(rt; "{fault}"),
    };
    let mut lines = Lines(behind);
    let Some(line) = lines.next() else {
        return Ok(());
    };
    let Some(start) = start_instant(line) else {
        return print_unknown(rt, line);
    };
    let policy = plan.policy();
    // A run of no calls yet: `run` is the call whose contract is the promise.
    let mut executive = run(plan, policy, start, &[], &mut []);
    let result = lines.try_for_each(|line| answer(rt, &mut executive, line));
    let (_plan, _policy) = executive.stop();
    result
}
