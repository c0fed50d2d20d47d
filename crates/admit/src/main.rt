// Reads a text from standard input, admits it, and prints how many bytes and lines it has and where it ends; or prints the fault and ends with status 1.

#![tactic(auto)]

use anyhow::ensure;
use std::io::Read;
use survey::{report_line, survey};

fn main(rt: HostRuntime) -> anyhow::Result<()> {
    let heap = rt.alloc();
    let mut bytes = Vec::new(heap);
    rt.stdin().read_to_end(&mut bytes)?;
    let answer = survey(bytes.as_slice());
    rt.print(report_line(heap, answer)?)?;
    ensure!(answer.is_ok(), "refused");
    Ok(())
}
