ghost use Rattle.std.specs.Prelude.{◌≡◌, ◌+◌, ◌<◌, ◌≤◌, true, length, take, drop};
ghost use Rattle.std.specs.Iterator.{item_count};
ghost use Rattle.unindent.specs.Cuts.{first_line_length};
ghost use Rattle.unindent.specs.Left.{GivesPiece, left, whole as whole_of};
ghost use Rattle.unindent.specs.Lines.{indentation as indentation_of, lines as lines_of, piece as piece_of, pieces, roomy};

use crate::lines::{blank, ends_crlf, indentation, line_length};
use crate::record::Pieces;

// The first line of a text, with its line feed, and what follows it.
fn cut(text: &str) -> (&str, &str)
    requires { 0 < length text.now }
    ensures line { result.0.now ≡ take (first_line_length text.now) text.now }
    ensures after { result.1.now ≡ drop (first_line_length text.now) text.now }
    ensures shorter { length result.1.now < length text.now }
    ensures parts { length result.0.now + length result.1.now ≡ length text.now }
{
    let n = line_length(text.as_bytes());
    text.split_at(n)
}

// What becomes of a line.
fn piece(line: &str, first: bool, last: bool, n: usize) -> &str
    requires room { roomy n line.now ≡ true }
    requires some { 0 < length line.now }
    ensures is { result.now ≡ piece_of first last n line.now }
    ensures short { length result.now ≤ length line.now }
{
    if !blank(line.as_bytes()) {
        &line[n..]
    } else if first || last {
        ""
    } else if ends_crlf(line.as_bytes()) {
        "\r\n"
    } else {
        "\n"
    }
}

impl<'a> Pieces<'a> {
    // The unindented lines of a text.
    pub fn unindented(text: &'a str) -> Self
        ensures of { result.rest.now ≡ text.now }
        ensures gives { left result ≡ pieces true (length (indentation_of (lines_of text.now))) (lines_of text.now) }
    {
        Pieces {
            rest: text,
            first: true,
            indent: Some(indentation(text.as_bytes())),
        }
    }

    // A text as it stands, in one piece. The lemma is for the edit that takes it for lines with nothing to remove.
    #[tactic(auto, using(crate::proofs::Shared::none_room))]
    pub fn whole(text: &'a str) -> Self
        ensures of { result.rest.now ≡ text.now }
        ensures gives { left result ≡ whole_of text.now }
    {
        Pieces {
            rest: text,
            first: true,
            indent: None,
        }
    }
}

// One piece after the other, to the end of the text.
impl<'a> Iterator for Pieces<'a> {
    type Item = &'a str;

    ghost next_gives = { GivesPiece };

    ghost remaining = { item_count left };

    fn next(&mut self) -> Option<&'a str> {
        let rest = self.rest;
        if rest.is_empty() {
            return None;
        }
        let Some(n) = self.indent else {
            self.rest = "";
            return Some(rest);
        };
        let (line, after) = cut(rest);
        let piece = piece(line, self.first, after.is_empty(), n);
        self.first = false;
        self.rest = after;
        Some(piece)
    }
}
