//! Plans a task sheet: reads it from standard input, makes one call, and prints what the call wrote.

#![tactic(auto)]

use report::desk::Desk;
use std::io::{self, Cursor, Read, Write};

// One byte more than a sheet may have, so that a longer text is known to be too long; and the program ends
// even where its input does not.
const TEXT_MOST: usize = 4097;

fn answer(rt: &HostRuntime) -> anyhow::Result<()> {
    // Read into a place of its own size: only the places of the desk ask for memory.
    let mut text = Cursor::new([0; TEXT_MOST]);
    io::copy(&mut rt.stdin().take(TEXT_MOST as u64), &mut text)?;
    let len = text.position().min(TEXT_MOST as u64) as usize;
    let mut desk = Desk::new(rt.alloc())?;
    // The call writes into a buffer of the caller's, and says how many bytes.
    let mut out = [0; 1024];
    let written = desk.print(&text.get_ref()[..len], &mut out)?;
    rt.stdout().write_all(&out[..written])?;
    Ok(())
}

fn main(rt: HostRuntime) -> anyhow::Result<()> {
    answer(&rt)
}
