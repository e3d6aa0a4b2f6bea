//! Runs a whole batch of scripts, to hold the executive to another program's answers. Standard input is a
//! sequence of records, each the length of a script in decimal, the byte 10, and the script. For each
//! record a line `== K` and the answers are printed.

#![tactic(auto)]

use script::batch::Records;
use script::bench;
use std::io::Read;

fn main(rt: HostRuntime) -> anyhow::Result<()> {
    let mut batch = Vec::new(rt.alloc());
    rt.stdin().read_to_end(&mut batch)?;
    for (script, k) in Records::new(&batch).zip(1u64..) {
        println!(rt; "== {k}")?;
        bench(&rt, script)?;
    }
    Ok(())
}
