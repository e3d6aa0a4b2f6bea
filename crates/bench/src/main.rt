//! Runs an executive from a script on standard input.

#![tactic(auto)]

use script::bench;
use std::io::Read;

fn main(rt: HostRuntime) -> anyhow::Result<()> {
    let mut input = Vec::new(rt.alloc());
    rt.stdin().read_to_end(&mut input)?;
    bench(&rt, &input)?;
    Ok(())
}
