// The lines that the programs print.

#![tactic(auto)]

mod line;
mod names;
mod writer;

ghost use Rattle.std.specs.Prelude.{◌≡◌, IfOk, string_bytes};
ghost use Rattle.token.specs.Told.{refusal};
ghost use Rattle.listing.specs.Lines.{line_of_fault};

pub use line::{MAX_LINE, write_line};
use std::alloc::{AllocError, Global};
use token::Fault;

// The line of a fault, with its line feed.
pub fn fault_line(heap: Global, fault: Fault) -> Result<String, AllocError>
    ensures { IfOk result (λ s. string_bytes s ≡ line_of_fault (refusal fault)) }
{
    format!(in heap; "{fault}\n")
}
