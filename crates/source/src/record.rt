ghost use Rattle.std.specs.Prelude.{◌≡◌, ◌≤◌, true, length};
ghost use Rattle.utf8.specs.Utf8.{well_formed};

// A text of at most 65,536 bytes of UTF-8.
#[derive(Clone, Copy)]
pub struct Source<'a> {
    pub(crate) text: &'a str,
    ghost small: { length text.now ≤ 65536 },
    ghost valid: { well_formed text.now ≡ true },
}
