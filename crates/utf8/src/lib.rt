// UTF-8: which bytes are characters, and where the first ones stand that are not.

#![tactic(auto)]

mod grammar;
mod scan;

pub use grammar::{character, character_length};
pub use scan::{first_bad, text};
