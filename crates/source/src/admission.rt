ghost use Rattle.std.specs.Prelude.{◌≡◌, []};
ghost use Rattle.token.specs.Told.{told};
ghost use Rattle.source.specs.Admission.{admission, held_after};
ghost use Rattle.source.specs.Sources.{text_of};

use crate::record::Source;
use token::{Cause, Fault, Layer, Position};

// The longest text that is admitted, in bytes.
pub const MAX_TEXT: usize = 65_536;

impl<'a> Source<'a> {
    // A source that holds the empty text.
    pub fn new() -> Self
        ensures { text_of result ≡ [] }
    {
        Source { text: "" }
    }

    // Takes a text over, or refuses it and keeps the one it holds. The length is looked at before the encoding.
    pub fn admit(&mut self, bytes: &'a [u8]) -> Result<(), Fault>
        ensures tells { told result ≡ admission bytes.now }
        ensures holds { text_of self.new ≡ held_after (admission bytes.now) bytes.now (text_of self.old) }
    {
        if bytes.len() > MAX_TEXT {
            return Err(refused(Cause::TextTooLong, 0));
        }
        let text = utf8::text(bytes).map_err(|at| refused(Cause::InvalidUtf8, at as u32))?;
        *self = Source { text };
        Ok(())
    }

    // The text it holds.
    pub fn text(&self) -> &'a str
        ensures { result.now ≡ text_of self.now }
    {
        self.text
    }
}

// A refusal by the admission, of no length, on the first line.
fn refused(cause: Cause, offset: u32) -> Fault
    ensures { result ≡ record { cause = cause; layer = Layer.Admission; position = record { offset = offset; line = 0; column = 0 }; length = 0; needed = 0 } }
{
    let position = Position {
        offset,
        ..Position::default()
    };
    Fault::new(cause, Layer::Admission, position, 0)
}
