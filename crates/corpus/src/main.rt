//! Plans a whole batch of task sheets, to hold the planner to another program's answers. Standard input
//! is a sequence of records, each the length of a text in decimal, the byte 10, and the text. For each
//! record a line `== K` and the answer are printed.

#![tactic(auto)]

use report::desk::Desk;
use script::batch::Records;
use std::io::{Read, Write};

fn answer_one(rt: &HostRuntime, desk: &mut Desk, k: u64, text: &[u8]) -> anyhow::Result<()> {
    // The call writes into a buffer of the caller's, and says how many bytes.
    let mut out = [0; 1024];
    let written = desk.print(text, &mut out)?;
    println!(rt; "== {k}")?;
    rt.stdout().write_all(&out[..written])?;
    Ok(())
}

fn answer_all(rt: &HostRuntime, batch: &[u8]) -> anyhow::Result<()> {
    let mut desk = Desk::new(rt.alloc())?;
    for (text, k) in Records::new(batch).zip(1u64..) {
        answer_one(rt, &mut desk, k, text)?;
    }
    Ok(())
}

fn main(rt: HostRuntime) -> anyhow::Result<()> {
    let mut batch = Vec::new(rt.alloc());
    rt.stdin().read_to_end(&mut batch)?;
    answer_all(&rt, &batch)
}
