ghost use Rattle.std.specs.Prelude.{◌≡◌, false};
ghost use Rattle.rules.specs.Lines.{outdents as outdents_of};
ghost use Rattle.lines.specs.Reaches.{reach_of};

use crate::ahead::Ahead;
use crate::reached::Reach;
use scan::{White, leading};

// Whether the white space that comes first ends in a line feed, and something follows it.
#[tactic(auto, using(crate::proofs::Runs::outdents_ends))]
fn outdents(ahead: &[u8]) -> bool
    ensures { result ≡ outdents_of false ahead.now }
{
    let (blank, behind) = ahead.split_at(leading::<White>(ahead));
    blank.ends_with(b"\n") && !behind.is_empty()
}

// Scans the white space that comes first, once for all places in it.
pub fn blank_reach(ahead: &[u8]) -> Reach
    ensures { result ≡ reach_of ahead.now }
{
    Reach {
        length: leading::<White>(ahead),
        outdents: outdents(ahead),
    }
}

impl<'a> Ahead<'a> {
    // Whether the white space that comes first ends in a line feed, and something follows it; scanned only where it is not known.
    pub(crate) fn leads_outward(self) -> bool
        ensures { result ≡ outdents_of false self.entry.bytes.now }
    {
        if self.blank.length > 0 {
            self.blank.outdents
        } else {
            outdents(self.bytes)
        }
    }
}
