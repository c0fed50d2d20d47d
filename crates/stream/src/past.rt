ghost use Rattle.std.specs.Prelude.{◌≡◌};
ghost use Rattle.stream.specs.Sources.{Glances, Nexts};
ghost use Rattle.stream.specs.Sifted.{Past, Shown, sifted};
ghost use Rattle.token.specs.Ordinals.{same_kind};

use crate::sourced::TokenSource;
use token::{Fault, Token, TokenKind};

// Whether a token is of a kind.
#[tactic(auto, using(token::proofs::Same::kinds_tested))]
fn is_of(kind: TokenKind, t: Token) -> bool
    ensures { result ≡ same_kind t.kind kind }
{
    t.kind == kind
}

// The first token to come that is no Whitespace, or the ending. Whitespace before it is taken off. No `for`: a source is looked at before it moves, which an iterator is not.
pub fn glance_past<S: TokenSource>(below: &mut S) -> Result<Option<Token>, Fault>
    ensures { Glances (sifted S.TokenSource.meaning) (Shown S.TokenSource.meaning S.TokenSource.stays S.TokenSource.moves) below.old result below.new }
{
    while let Some(t) = below.glance()? {
        if !is_of(TokenKind::Whitespace, t) {
            return Ok(Some(t));
        }
        let _ = below.next();
    }
    Ok(None)
}

// The same, and that token is taken off: by `glance_past` and a `next` it would be found twice.
pub fn next_past<S: TokenSource>(below: &mut S) -> Result<Option<Token>, Fault>
    ensures { Nexts (sifted S.TokenSource.meaning) (Past S.TokenSource.meaning S.TokenSource.stays S.TokenSource.moves) below.old result below.new }
{
    while let Some(token) = below.next()? {
        if !is_of(TokenKind::Whitespace, token) {
            return Ok(Some(token));
        }
    }
    Ok(None)
}
