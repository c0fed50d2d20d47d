ghost use Rattle.std.specs.Prelude.{◌≡◌, IfOk, string_bytes};
ghost use Rattle.token.specs.Told.{told};
ghost use Rattle.survey.specs.Summaries.{line_of_report};

use crate::summary::Summary;
use listing::fault_line;
use std::alloc::{AllocError, Global};
use token::Fault;

// The line that tells a survey's answer.
pub fn report_line(heap: Global, answer: Result<Summary, Fault>) -> Result<String, AllocError>
    ensures { IfOk result (λ s. string_bytes s ≡ line_of_report (told answer)) }
{
    match answer {
        Ok(summary) => format!(in heap; "{summary}\n"),
        Err(fault) => fault_line(heap, fault),
    }
}
