// The text that a string literal stands for.

#![tactic(auto)]

mod call;
mod cooking;
mod feeding;
mod literal;
mod quote;

pub use call::text;
