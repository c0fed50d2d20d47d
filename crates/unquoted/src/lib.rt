// A text that is one string literal.

#![tactic(auto)]

ghost use Rattle.std.specs.Prelude.{◌≡◌, length};
ghost use Rattle.token.specs.Told.{told};
ghost use Rattle.text.specs.Texts.{text_answer, text_buffer};
ghost use Rattle.unquoted.specs.Whole.{whole_text, whole_token};

use source::Source;
use text::text;
use token::{Fault, Position, Token, TokenKind};

// Admits a literal and lays the text that it stands for into the start of a buffer.
pub fn unquoted(literal: &[u8], buffer: &mut [u8]) -> Result<usize, Fault>
    ensures gives { told result ≡ text_answer (whole_token literal.now) (length buffer.old) (whole_text literal.now) }
    ensures fills { buffer.new ≡ text_buffer (whole_text literal.now) buffer.old }
{
    let mut source = Source::new();
    source.admit(literal)?;
    let token = Token {
        kind: TokenKind::StringToken,
        position: Position::default(),
        length: literal.len() as u32,
    };
    text(&source, token, buffer)
}
