ghost use Rattle.std.specs.Prelude.{◌≡◌, ◌+◌, ◌≤◌, true, length};
ghost use Rattle.source.specs.Sources.{text_of};
ghost use Rattle.utf8.specs.Utf8.{bound};

use crate::record::Source;
use token::Position;

// A place in a source's text, between two characters or at an end.
#[derive(Clone, Copy)]
pub struct Cursor<'a> {
    pub(crate) source: Source<'a>,
    pub(crate) position: Position,
    ghost within: { position.offset ≤ length (text_of source) },
    ghost between: { bound (text_of source) position.offset ≡ true },
    ghost near: { position.line + position.column ≤ position.offset },
}
