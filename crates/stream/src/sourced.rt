ghost use Rattle.lexer.specs.Runs.{Meaning};
ghost use Rattle.stream.specs.Sources.{Glances, Nexts};

use token::{Fault, Token};

// A source of tokens. It means a list of tokens to come, of at most 98,305, and an ending: clean, or a fault. `stays` and `moves` say what is left of the source itself behind a glance and behind a next.
pub trait TokenSource {
    ghost meaning: { Self → Meaning };

    ghost stays: { Self → Self → Type 0 };

    ghost moves: { Self → Self → Type 0 };

    // The first token to come, or the ending where none is left. The meaning stays.
    fn glance(&mut self) -> Result<Option<Token>, Fault>
        ensures { Glances meaning stays self.old result self.new };

    // The same, and the first token, if any, is taken off.
    fn next(&mut self) -> Result<Option<Token>, Fault>
        ensures { Nexts meaning moves self.old result self.new };
}
