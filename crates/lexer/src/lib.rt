// A session over a text: what it answers, and how each token leaves it.

#![tactic(auto)]

mod examples;
mod seen;

pub use examples::lexing_examples_hold;
pub use seen::Seen;
