// What there is to tell of a whole text: its bytes, its lines and its end, or why it is not admitted.

#![tactic(auto)]

mod report;
mod summary;
mod walk;

pub use report::report_line;
pub use summary::Summary;
pub use walk::survey;
