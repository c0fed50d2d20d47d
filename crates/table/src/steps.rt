ghost use Rattle.std.specs.Prelude.{◌≡◌, ℕ, ◌≤◌, Bool, false, List, length};
ghost use Rattle.rules.specs.Found.{Move};
ghost use Rattle.rules.specs.Scans.{scan};

use rules::Move;

// What a scan does at a place.
pub trait Steps {
    ghost moves: { Self → Bool → List ℕ → Move };

    fn step(&self, escaped: bool, ahead: &[u8]) -> Move
        ensures { result ≡ moves self.now escaped ahead.now };
}

// How many bytes a scan passes.
#[tactic(auto, using(crate::proofs::Turns::turn))]
pub fn passed<S: Steps>(steps: &S, bytes: &[u8]) -> usize
    ensures is { result ≡ scan (S.Steps.moves steps.now) 0 false bytes.now }
    ensures within { result ≤ length bytes.now }
{
    let mut rest = bytes;
    let mut escaped = false;
    while let [_, behind @ ..] = rest {
        let Some(pass) = steps.step(escaped, rest) else {
            break;
        };
        rest = &behind[pass.more.min(behind.len())..];
        escaped = pass.escaped;
    }
    bytes.len() - rest.len()
}
