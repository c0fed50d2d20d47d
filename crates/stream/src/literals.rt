ghost use Rattle.std.specs.Prelude.{◌≡◌, length, Some, Ok};
ghost use Rattle.token.specs.Told.{told};
ghost use Rattle.source.specs.Sources.{text_of};
ghost use Rattle.stream.specs.Literals.{Literals, literal_buffer, literal_of};

use crate::sourced::TokenSource;
use source::Source;
use text::text;
use token::{Cause, Fault, Layer, Position, Token, TokenKind};

// Lays the text of a token that comes next into a buffer, and answers the token with its text's length.
fn lay(token: Token, source: &Source, buffer: &mut [u8]) -> Result<(Token, usize), Fault>
    ensures tells { told result ≡ literal_of (text_of source.now) (length buffer.old) (Ok (Some token)) }
    ensures fills { buffer.new ≡ literal_buffer (text_of source.now) (Ok (Some token)) buffer.old }
{
    if token.kind != TokenKind::StringToken {
        return Err(Fault::over(Cause::NoStringToken, Layer::Literal, token));
    }
    let n = text(source, token, buffer)?;
    Ok((token, n))
}

// The refusal where the tokens have ended.
fn ended() -> Fault
    ensures { result ≡ record { cause = Cause.SourceEnded; layer = Layer.Literal; position = record { offset = 0; line = 0; column = 0 }; length = 0; needed = 0 } }
{
    Fault::new(Cause::SourceEnded, Layer::Literal, Position::default(), 0)
}

// The text of the next token, laid into the start of a buffer: the token is taken and answered with its text's length. A refused literal takes nothing and writes nothing.
pub fn literal<S: TokenSource>(
    tokens: &mut S,
    source: &Source,
    buffer: &mut [u8],
) -> Result<(Token, usize), Fault>
    ensures { Literals S.TokenSource.meaning S.TokenSource.stays S.TokenSource.moves (text_of source.now) buffer.old tokens.old result tokens.new buffer.new }
{
    let token = tokens.glance()?.ok_or(ended())?;
    let answer = lay(token, source, buffer)?;
    let _ = tokens.next();
    Ok(answer)
}
