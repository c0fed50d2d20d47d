// Reads one string literal from standard input, with or without a line feed behind it, and prints the text that it stands for; or prints the fault and ends with status 1.

#![tactic(auto)]

use anyhow::anyhow;
use listing::fault_line;
use std::io::{Read, Write};
use unquoted::unquoted;

fn main(rt: HostRuntime) -> anyhow::Result<()> {
    let heap = rt.alloc();
    let mut input = Vec::new(heap);
    rt.stdin().read_to_end(&mut input)?;
    let literal = input.strip_suffix(b"\n").unwrap_or(input.as_slice());
    // The text is no longer than the literal. It goes out as it is, where `literal_cases` prints its bytes, so each has a buffer of its own.
    let mut buffer = vec![in heap; 0u8; literal.len()]?;
    match unquoted(literal, buffer.as_mut_slice()) {
        Ok(n) => {
            buffer.truncate(n);
            rt.stdout().write_all(buffer.as_slice())?;
            Ok(())
        }
        Err(fault) => {
            rt.print(fault_line(heap, fault)?)?;
            Err(anyhow!("refused"))
        }
    }
}
