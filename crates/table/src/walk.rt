ghost use Rattle.std.specs.Prelude.{◌≡◌, true, false, ◌&&◌, ◌||◌};
ghost use Rattle.scan.specs.Prefix.{begins};
ghost use Rattle.token.specs.Strings.{delimiter_of};
ghost use Rattle.rules.specs.Scans.{character as character_of, line_end as line_end_of, opening, over_comment, over_text, width as width_of};
ghost use Rattle.rules.specs.Strings.{over_string};
ghost use Rattle.table.specs.Finds.{line_end_length};

use crate::steps::Steps;
use rules::{Move, Pass};
use scan::starts;
use token::StringKind;
use utf8::character_length;

// How many bytes the line end has that comes first, if one does.
pub fn line_end(ahead: &[u8]) -> Option<usize>
    ensures { result ≡ line_end_length ahead.now }
{
    if starts(ahead, b"\n") {
        Some(1)
    } else if starts(ahead, b"\r\n") {
        Some(2)
    } else {
        None
    }
}

// Whether a line end comes first.
pub fn at_line_end(ahead: &[u8]) -> bool
    ensures { result ≡ line_end_of ahead.now }
{
    line_end(ahead).is_some()
}

// How many bytes the first character has.
pub(crate) fn width(ahead: &[u8]) -> usize
    ensures { result ≡ width_of ahead.now }
{
    match ahead {
        [] => 0,
        [c, ..] => character_length(*c),
    }
}

// A character is passed.
fn character(ahead: &[u8]) -> Move
    ensures { result ≡ character_of ahead.now }
{
    Some(Pass {
        more: width(ahead).saturating_sub(1),
        escaped: false,
    })
}

// A comment goes to the end of its line.
pub struct OverComment;

impl Steps for OverComment {
    ghost moves = { λ _. over_comment };

    fn step(&self, _escaped: bool, ahead: &[u8]) -> Move {
        if at_line_end(ahead) {
            None
        } else {
            character(ahead)
        }
    }
}

// Text goes to the end of its line or to `{{`, and `{{{{` is text.
pub struct OverText;

impl Steps for OverText {
    ghost moves = { λ _. over_text };

    fn step(&self, _escaped: bool, ahead: &[u8]) -> Move {
        if starts(ahead, b"{{{{") {
            Some(Pass {
                more: 3,
                escaped: false,
            })
        } else if at_line_end(ahead) || starts(ahead, b"{{") {
            None
        } else {
            character(ahead)
        }
    }
}

// The inside of a string of a kind, which is a format string or not.
#[derive(Clone, Copy)]
pub struct OverString {
    pub kind: StringKind,
    pub format: bool,
}

// Whether bytes begin with the delimiter of a kind.
pub(crate) fn delimited(ahead: &[u8], kind: StringKind) -> bool
    ensures { result ≡ begins (delimiter_of kind) ahead.now }
{
    starts(ahead, kind.delimiter().as_bytes())
}

impl OverString {
    // Whether a string stops at its delimiter, or a format string at `{{`.
    fn stops(self, ahead: &[u8]) -> bool
        ensures { result ≡ (begins (delimiter_of self.kind) ahead.now || (self.format && begins opening ahead.now)) }
    {
        delimited(ahead, self.kind) || self.format && starts(ahead, b"{{")
    }
}

impl Steps for OverString {
    ghost moves = { λ s. over_string s.kind s.format };

    fn step(&self, escaped: bool, ahead: &[u8]) -> Move {
        if !escaped && self.kind.processes_escape_sequences() && starts(ahead, b"\\") {
            Some(Pass {
                more: 0,
                escaped: true,
            })
        } else if self.format && starts(ahead, b"{{{{") {
            Some(Pass {
                more: 3,
                escaped: false,
            })
        } else if !escaped && self.stops(ahead) {
            None
        } else {
            character(ahead)
        }
    }
}
