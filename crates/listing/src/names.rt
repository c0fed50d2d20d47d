ghost use Rattle.std.specs.Prelude.{◌≡◌, ◌≤◌, length};
ghost use Rattle.listing.specs.Names.{name_of};

use token::TokenKind;

// The name of a kind. A text and no Display: what formats may refuse, and a line is laid without refusing. A derived Debug says nothing of its bytes.
pub(crate) fn name(kind: TokenKind) -> &'static str
    ensures is { result.now ≡ name_of kind }
    ensures short { length result.now ≤ 20 }
{
    match kind {
        TokenKind::AmpersandAmpersand => "AmpersandAmpersand",
        TokenKind::Asterisk => "Asterisk",
        TokenKind::At => "At",
        TokenKind::Backtick => "Backtick",
        TokenKind::Bang => "Bang",
        TokenKind::BangEquals => "BangEquals",
        TokenKind::BangTilde => "BangTilde",
        TokenKind::BarBar => "BarBar",
        TokenKind::BraceL => "BraceL",
        TokenKind::BraceR => "BraceR",
        TokenKind::BracketL => "BracketL",
        TokenKind::BracketR => "BracketR",
        TokenKind::ByteOrderMark => "ByteOrderMark",
        TokenKind::Colon => "Colon",
        TokenKind::ColonColon => "ColonColon",
        TokenKind::ColonEquals => "ColonEquals",
        TokenKind::Comma => "Comma",
        TokenKind::Comment => "Comment",
        TokenKind::Dedent => "Dedent",
        TokenKind::Dollar => "Dollar",
        TokenKind::Eof => "Eof",
        TokenKind::Eol => "Eol",
        TokenKind::Equals => "Equals",
        TokenKind::EqualsEquals => "EqualsEquals",
        TokenKind::EqualsTilde => "EqualsTilde",
        TokenKind::FormatStringContinue => "FormatStringContinue",
        TokenKind::FormatStringEnd => "FormatStringEnd",
        TokenKind::FormatStringStart => "FormatStringStart",
        TokenKind::Identifier => "Identifier",
        TokenKind::Indent => "Indent",
        TokenKind::InterpolationEnd => "InterpolationEnd",
        TokenKind::InterpolationStart => "InterpolationStart",
        TokenKind::ParenL => "ParenL",
        TokenKind::ParenR => "ParenR",
        TokenKind::Plus => "Plus",
        TokenKind::PlusPlus => "PlusPlus",
        TokenKind::QuestionMark => "QuestionMark",
        TokenKind::Slash => "Slash",
        TokenKind::StringToken => "StringToken",
        TokenKind::Text => "Text",
        TokenKind::Whitespace => "Whitespace",
    }
}
