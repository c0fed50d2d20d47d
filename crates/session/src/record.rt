ghost use Rattle.std.specs.Prelude.{◌≡◌, ◌≤◌, true, length};
ghost use Rattle.lines.specs.Reaches.{settled};
ghost use Rattle.source.specs.Cursors.{ahead};
ghost use Rattle.stack.specs.Held.{stacked};

use lines::Reach;
use source::Cursor;
use stack::Stack;
use token::{Delimiter, Span, Token};

// A session over a source's text, with the caller's tables of levels and openers. Each open Indent has bytes of its own before the place. `blank` is what is known of the blank-line scan from the place on. What a token turns on or off is a flag, each by itself, as in the definition's `State`.
#[derive(Drop)]
pub struct Session<'a, 't> {
    pub(crate) cursor: Cursor<'a>,
    pub(crate) levels: Stack<'t, Span>,
    pub(crate) openers: Stack<'t, Delimiter>,
    pub(crate) mark: Option<Token>,
    pub(crate) body: bool,
    pub(crate) colon: bool,
    pub(crate) formats: bool,
    pub(crate) ended: bool,
    pub(crate) blank: Reach,
    ghost shallow: { length (stacked levels) ≤ cursor.position.offset },
    ghost settled: { settled blank.outdents blank.length (ahead cursor) ≡ true },
}
