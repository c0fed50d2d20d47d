ghost use Rattle.std.specs.Prelude.{◌≡◌};
ghost use Rattle.rules.specs.Laws.{Sound};
ghost use Rattle.rules.specs.Lines.{body as body_of, finish as finish_of, onward as onward_of, rule as rule_of, space as space_of, stop as stop_of, told as told_of};
ghost use Rattle.lines.specs.Levels.{texts_of};

use crate::ahead::Ahead;
use crate::levels::Levels;
use crate::reached::Reach;
use crate::starts::Here;
use rules::{Around, Found, Miss, Start};
use scan::starts;
use table::{OverText, general, line_end, passed};
use token::TokenKind;

// Whitespace, if not empty.
fn space(n: usize) -> Option<Found>
    ensures { result ≡ space_of n }
{
    (n > 0).then_some(Ok((TokenKind::Whitespace, n)))
}

// What the start of a line hands out.
fn told(start: Start) -> Option<Found>
    ensures { result ≡ told_of start }
{
    match start {
        Start::Still(n) | Start::Aligned(n) => space(n),
        Start::Outward => Some(Ok((TokenKind::Dedent, 0))),
        Start::Inward(n) => Some(Ok((TokenKind::Indent, n))),
        Start::Wrong(cause, n) => Some(Err(Miss::Fails(cause, 0, n))),
    }
}

// What stops the text of a body.
fn stop(ahead: &[u8]) -> Found
    ensures { result ≡ stop_of ahead.now }
{
    match line_end(ahead) {
        Some(n) => Ok((TokenKind::Eol, n)),
        None => Ok((TokenKind::InterpolationStart, 2)),
    }
}

// The body of a recipe.
fn body(ahead: &[u8]) -> Found
    ensures { result ≡ body_of ahead.now }
{
    match passed(&OverText, ahead) {
        0 => stop(ahead),
        n => Ok((TokenKind::Text, n)),
    }
}

impl<'a> Here<'a> {
    // The end of the text.
    fn finish(self) -> Found
        ensures { result ≡ finish_of self.entry.around (texts_of self.entry.levels) }
    {
        if self.around.marked {
            Err(Miss::Unclosed)
        } else if self.levels.indented() {
            Ok((TokenKind::Dedent, 0))
        } else {
            Ok((TokenKind::Eof, 0))
        }
    }

    // What comes where no line starts, or where its start hands out nothing.
    fn onward(self) -> Found
        ensures { result ≡ onward_of self.entry.around (texts_of self.entry.levels) self.entry.ahead.bytes.now }
    {
        let ahead = self.ahead.bytes;
        if ahead.is_empty() {
            self.finish()
        } else if self.around.marked && self.around.newest.is_none() && starts(ahead, b"}}") {
            Ok((TokenKind::InterpolationEnd, 2))
        } else if self.around.body && !self.around.marked {
            body(ahead)
        } else {
            general(self.around, ahead)
        }
    }

    // What is found: at column 0 the start of a line is tried first.
    fn tried(self, fresh: bool) -> Found
        ensures { result ≡ rule_of fresh self.entry.around (texts_of self.entry.levels) self.entry.ahead.bytes.now }
    {
        if fresh && let Some(found) = told(self.start()) {
            return found;
        }
        self.onward()
    }
}

// What the rules find, which keeps their law.
pub fn rule(fresh: bool, around: Around, levels: Levels, ahead: &[u8]) -> Found
    ensures is { result ≡ rule_of fresh around (texts_of levels.entry) ahead.now }
    ensures sound { Sound fresh around (texts_of levels.entry) ahead.now result }
{
    let ahead = Ahead {
        bytes: ahead,
        blank: Reach::default(),
    };
    rule_from(fresh, around, levels, ahead)
}

// The same, where something is known of the blank-line scan, so that less is scanned.
#[tactic(auto, using(crate::proofs::Sounds::sound_from))]
pub fn rule_from(fresh: bool, around: Around, levels: Levels, ahead: Ahead) -> Found
    ensures is { result ≡ rule_of fresh around (texts_of levels.entry) ahead.entry.bytes.now }
    ensures sound { Sound fresh around (texts_of levels.entry) ahead.entry.bytes.now result }
{
    let here = Here {
        around,
        levels,
        ahead,
    };
    here.tried(fresh)
}
