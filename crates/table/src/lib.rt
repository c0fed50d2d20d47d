// The general table, strings, and the scans over what lies ahead.

#![tactic(auto)]

mod picks;
mod steps;
mod strings;
mod walk;

pub use picks::{general, nested};
pub use steps::{Steps, passed};
pub use strings::format_kind;
pub use walk::{OverText, at_line_end, line_end};
