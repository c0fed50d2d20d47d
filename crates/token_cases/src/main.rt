// Lists the tokens of a list of texts, one text for each line of standard input, and prints a line `--` behind each listing.
// A line is a row of bytes in hexadecimal, parted by spaces; `61*65536` stands for 65,536 bytes 61.

#![tactic(auto)]

use lister::list;
use std::io::{BufRead, BufReader, Write};

fn main(rt: HostRuntime) -> anyhow::Result<()> {
    let heap = rt.alloc();
    for line in BufReader::new(heap, rt.stdin())?.lines(heap) {
        let line = line?;
        let text = words::line(heap, line.as_str())?;
        let mut listing = Vec::new(heap);
        list(heap, text.as_slice(), &mut listing)?;
        listing.extend_from_slice(b"--\n")?;
        rt.stdout().write_all(listing.as_slice())?;
    }
    Ok(())
}
