// Reads a text from standard input and prints its tokens, a line for each; a fault ends them with a line of its own, and the program with status 1.

#![tactic(auto)]

use anyhow::ensure;
use lister::list;
use std::io::{Read, Write};

fn main(rt: HostRuntime) -> anyhow::Result<()> {
    let heap = rt.alloc();
    let mut text = Vec::new(heap);
    rt.stdin().read_to_end(&mut text)?;
    let mut listing = Vec::new(heap);
    let whole = list(heap, text.as_slice(), &mut listing)?;
    rt.stdout().write_all(listing.as_slice())?;
    ensure!(whole, "refused");
    Ok(())
}
