// Surveys a list of texts, one for each line of standard input, and prints a line for each.
// A line is a row of bytes in hexadecimal, parted by spaces; `61*65536` stands for 65,536 bytes 61.

#![tactic(auto)]

use survey::{report_line, survey};

fn main(rt: HostRuntime) -> anyhow::Result<()> {
    let heap = rt.alloc();
    for line in rt.lines(heap) {
        let line = line?;
        let bytes = words::line(heap, line.as_str())?;
        rt.print(report_line(heap, survey(bytes.as_slice()))?)?;
    }
    Ok(())
}
