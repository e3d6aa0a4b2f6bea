//! Runs a batch of scripts that ask for figures, the coming release and the worst line, to hold the answers to
//! another program's. Standard input is a sequence of records, each the length of a script in decimal, the
//! byte 10, and the script. For each record a line `== K` and the answers are printed. The program is that of
//! `bench_corpus` on another batch, since a program has one stored input.

#![tactic(auto)]

use script::batch::Records;
use script::bench;
use std::io::Read;

fn main(rt: HostRuntime) -> anyhow::Result<()> {
    let mut batch = Vec::new(rt.alloc());
    rt.stdin().read_to_end(&mut batch)?;
    for (script, k) in Records::new(&batch).zip(1u64..) {
        println!(rt; "== {k}")?;
        bench(&rt, script)?;
    }
    Ok(())
}
