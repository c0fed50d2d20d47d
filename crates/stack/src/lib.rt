// A stack over a table that the caller lends, for every element type that can be copied.

#![tactic(auto)]

mod ops;
mod record;

pub use record::Stack;
