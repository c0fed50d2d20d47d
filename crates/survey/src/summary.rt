ghost use Rattle.std.specs.Prelude.{Some};
ghost use Rattle.survey.specs.Summaries.{summary_text};

use std::fmt;
use token::Position;

// What is told of an admitted text: its bytes, its lines, and the place of its end.
#[derive(Clone, Copy)]
pub struct Summary {
    pub bytes: usize,
    pub lines: u32,
    pub end: Position,
}

impl fmt::Display for Summary {
    ghost output = { λ s. Some (summary_text s) };

    fn fmt<W: fmt::Write>(&self, f: &mut fmt::Formatter<W>) -> fmt::Result {
        write!(
            f,
            "bytes {} lines {} end {}:{}",
            self.bytes, self.lines, self.end.line, self.end.column
        )
    }
}
