ghost use Rattle.std.specs.Prelude.{◌≡◌};
ghost use Rattle.rules.specs.Effects.{effect_of};

use crate::parts::{Change, Effect};
use token::{Delimiter, TokenKind};

// What a token does once it is handed out.
pub fn effect(kind: TokenKind) -> Effect
    ensures { result ≡ effect_of kind }
{
    match kind {
        TokenKind::Indent => Effect::Indents,
        TokenKind::Dedent => Effect::Dedents,
        TokenKind::Text => Effect::Texts,
        TokenKind::Eof => Effect::Ends,
        TokenKind::InterpolationStart => Effect::Other(Change::Marks),
        TokenKind::InterpolationEnd => Effect::Other(Change::Unmarks),
        TokenKind::Colon => Effect::Other(Change::SeesColon),
        TokenKind::Identifier => Effect::Other(Change::Names),
        TokenKind::ParenL => Effect::Other(Change::Opens(Delimiter::Paren)),
        TokenKind::BracketL => Effect::Other(Change::Opens(Delimiter::Bracket)),
        TokenKind::BraceL => Effect::Other(Change::Opens(Delimiter::Brace)),
        TokenKind::ParenR => Effect::Other(Change::Closes(Delimiter::Paren)),
        TokenKind::BracketR => Effect::Other(Change::Closes(Delimiter::Bracket)),
        TokenKind::BraceR => Effect::Other(Change::Closes(Delimiter::Brace)),
        TokenKind::FormatStringStart => Effect::Other(Change::BeginsFormat),
        TokenKind::FormatStringEnd => Effect::Other(Change::EndsFormat),
        _ => Effect::Other(Change::Nothing),
    }
}
