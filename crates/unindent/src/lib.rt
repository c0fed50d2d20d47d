// Unindentation of strings with three quotes, as a row of pieces of the text.

#![tactic(auto)]

mod lines;
mod next;
mod record;

pub use record::Pieces;
