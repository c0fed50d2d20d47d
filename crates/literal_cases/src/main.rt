// Unquotes a list of literals, one for each line of standard input in hexadecimal, and prints for each the place, length and bytes of its text, or its fault.

#![tactic(auto)]

use listing::fault_line;
use std::alloc::{AllocError, Global};
use unquoted::unquoted;

fn main(rt: HostRuntime) -> anyhow::Result<()> {
    let heap = rt.alloc();
    for line in rt.lines(heap) {
        let line = line?;
        rt.print(answer(heap, line.as_str())?)?;
    }
    Ok(())
}

// The line for one literal. Each of its words is one byte: a count, as `words` reads it, is refused here. The text is no longer than the literal; `unquote` has such a buffer too, and writes it out as it is.
fn answer(heap: Global, line: &str) -> anyhow::Result<String> {
    let mut literal = Vec::new(heap);
    for word in line.split_whitespace() {
        literal.push(u8::from_str_radix(word, 16)?)?;
    }
    let mut buffer = vec![in heap; 0u8; literal.len()]?;
    match unquoted(literal.as_slice(), buffer.as_mut_slice()) {
        Ok(n) => {
            buffer.truncate(n);
            Ok(text_line(heap, buffer.as_slice())?)
        }
        Err(fault) => Ok(fault_line(heap, fault)?),
    }
}

// The place of a text, its length and its bytes.
fn text_line(heap: Global, text: &[u8]) -> Result<String, AllocError> {
    let bytes = hex::encode(heap, text)?;
    format!(in heap; "0:0 {} {bytes}\n", text.len())
}
