ghost use Rattle.std.specs.Prelude.{◌≡◌, true};
ghost use Rattle.lines.specs.Reaches.{settled};

use crate::reached::Reach;

// The bytes ahead, and what is known of the blank-line scan from the first of them on.
#[derive(Clone, Copy)]
pub struct Ahead<'a> {
    pub bytes: &'a [u8],
    pub blank: Reach,
    ghost settled: { settled blank.outdents blank.length bytes.now ≡ true },
}
