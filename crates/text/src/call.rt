ghost use Rattle.std.specs.Prelude.{◌≡◌, length};
ghost use Rattle.token.specs.Told.{told};
ghost use Rattle.source.specs.Sources.{text_of};
ghost use Rattle.text.specs.Cooked.{cooked};
ghost use Rattle.text.specs.Texts.{on_cooked, string_text, text_answer, text_buffer};

use crate::literal::Literal;
use source::Source;
use token::{Cause, Fault, Layer, Token, TokenKind};

// Lays the text of a string token into the start of a buffer and answers its length.
pub fn text(source: &Source, token: Token, buffer: &mut [u8]) -> Result<usize, Fault>
    ensures gives { told result ≡ text_answer token (length buffer.old) (string_text (text_of source.now) token) }
    ensures fills { buffer.new ≡ text_buffer (string_text (text_of source.now) token) buffer.old }
{
    let lexeme = source.lexeme(token)?;
    let refused = Fault::over(Cause::NoStringLiteral, Layer::Text, token);
    if token.kind != TokenKind::StringToken {
        return Err(refused);
    }
    lay(Literal::of(lexeme).ok_or(refused)?, token, buffer)
}

// Measures, and then writes if there is room.
fn lay(literal: Literal, token: Token, buffer: &mut [u8]) -> Result<usize, Fault>
    ensures gives { told result ≡ text_answer token (length buffer.old) (on_cooked token (cooked literal.entry.kind literal.entry.inner.now)) }
    ensures fills { buffer.new ≡ text_buffer (on_cooked token (cooked literal.entry.kind literal.entry.inner.now)) buffer.old }
{
    let refused = |escape| Fault::over(Cause::from(escape), Layer::Text, token);
    let n = literal.lay(&mut []).map_err(refused)?;
    if n > buffer.len() {
        return Err(Fault::too_short(token.position, token.length, n as u32));
    }
    // The same literal is refused by neither pass or by both.
    literal.lay(buffer).map_err(refused)
}
