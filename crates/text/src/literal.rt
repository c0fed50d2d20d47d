ghost use Rattle.std.specs.Prelude.{◌≤◌, length};

use token::StringKind;

// A string literal: how it is quoted, and what stands between its delimiters.
#[derive(Clone, Copy)]
pub(crate) struct Literal<'a> {
    pub(crate) kind: StringKind,
    pub(crate) inner: &'a str,
    ghost short: { length inner.now ≤ 65536 },
}
