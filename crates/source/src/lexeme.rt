ghost use Rattle.std.specs.Prelude.{◌≡◌, ◌≤◌, length, IfOk};
ghost use Rattle.token.specs.Told.{told_by};
ghost use Rattle.source.specs.Sources.{text_of, lexeme_in};

use crate::record::Source;
use token::{Cause, Fault, Layer, Token};

impl<'a> Source<'a> {
    // The part of the text that a token stands for. Any record will do: one that does not begin and end inside the text, between characters, is refused.
    pub fn lexeme(&self, token: Token) -> Result<&'a str, Fault>
        ensures tells { told_by (λ s. s.now) result ≡ lexeme_in (text_of self.now) token }
        ensures small { IfOk result (λ s. length s.now ≤ 65536) }
    {
        let text = self.text;
        let start = token.position.offset as usize;
        let end = start + token.length as usize;
        // The library's `get` would not do: of an empty part it does not promise that it stands between characters.
        if text.is_char_boundary(start) && text.is_char_boundary(end) {
            Ok(&text[start..end])
        } else {
            Err(Fault::over(Cause::TokenOutsideText, Layer::Text, token))
        }
    }
}
