ghost use Rattle.std.specs.Prelude.{◌≡◌, ◌-◌};

// What is known of the blank-line scan: at each of so many bytes it answers `outdents`, whether the white space from there on ends in a line feed that something follows.
#[derive(Clone, Copy, Default)]
pub struct Reach {
    pub length: usize,
    pub outdents: bool,
}

impl Reach {
    // What is known of it `n` bytes further on.
    pub fn behind(self, n: usize) -> Reach
        ensures length { result.length ≡ self.length - n }
        ensures outdents { result.outdents ≡ self.outdents }
    {
        Reach {
            length: self.length.saturating_sub(n),
            ..self
        }
    }
}
