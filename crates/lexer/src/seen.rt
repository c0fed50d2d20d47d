use token::StringKind;

// What a session sees of any token's text: the kind of the quoted string that begins there, and whether the text is the identifier f.
#[derive(Copy, Clone)]
pub struct Seen {
    pub quote: StringKind,
    pub f: bool,
}
