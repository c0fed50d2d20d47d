ghost use Rattle.std.specs.Prelude.{◌≡◌, ℕ, ◌+◌, ◌<◌, ◌≤◌, not};
ghost use Rattle.token.specs.Told.{origin};
ghost use Rattle.source.specs.Cursors.{ahead};
ghost use Rattle.source.specs.Places.{behind, none, breaks, walk};
ghost use Rattle.utf8.specs.Utf8.{character};

use crate::cursor::Cursor;
use crate::record::Source;
use token::Position;
use utf8::character_length;

impl<'a> Cursor<'a> {
    // At the beginning of a source's text.
    pub fn new(source: Source<'a>) -> Self
        ensures of { result.source ≡ source.entry }
        ensures at { result.position ≡ origin }
    {
        Cursor {
            source,
            position: Position::default(),
        }
    }

    // The source whose text it is in.
    pub fn source(&self) -> Source<'a>
        ensures { result ≡ self.now.source }
    {
        self.source
    }

    // The place.
    pub fn position(&self) -> Position
        ensures { result ≡ self.now.position }
    {
        self.position
    }

    // The bytes of the text that lie ahead.
    pub fn rest(&self) -> &'a [u8]
        ensures { result.now ≡ ahead self.now }
    {
        &self.source.text.as_bytes()[self.position.offset as usize..]
    }

    // Passes one character, and says whether there was one, which is all there is to say: the place is the cursor's. Everything that moves a place goes through this step.
    pub fn advance(&mut self) -> bool
        ensures answer { result ≡ not (none (ahead self.old)) }
        ensures moves { self.new.position ≡ walk (character (ahead self.old)) (ahead self.old) self.old.position }
        ensures keeps { self.new.source ≡ self.old.source }
    {
        let rest = self.rest();
        let Some(first) = rest.first() else {
            return false;
        };
        let n = character_length(*first) as u32;
        go_on(&mut self.position, n, breaks_line(rest));
        true
    }
}

// Whether the bytes ahead begin with a line feed that is not the last of them.
fn breaks_line(rest: &[u8]) -> bool
    ensures { result ≡ breaks rest.now }
{
    matches!(rest, [b'\n', _, ..])
}

// Goes n bytes on, to the start of a new line where the text breaks there.
fn go_on(place: &mut Position, n: u32, broken: bool)
    requires { (place.old.offset + n ≤ 65536) × (place.old.line + place.old.column ≤ place.old.offset) }
    ensures { place.new ≡ behind n broken place.old }
{
    place.offset += n;
    if broken {
        place.line += 1;
        place.column = 0;
    } else {
        place.column += n;
    }
}
