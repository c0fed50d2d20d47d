// Runs of bytes of one class.

#![tactic(auto)]

ghost use Rattle.std.specs.Prelude.{◌≡◌, ℕ, ◌≤◌, Bool, length, nat_eq};
ghost use Rattle.std.specs.List.{common_prefix_len as common_of, prefix_len as leading_of, zip};
ghost use Rattle.scan.specs.Classes.{gap, white, in_line};
ghost use Rattle.scan.specs.Prefix.{begins};

// A class of bytes.
pub trait ByteClass {
    ghost member: { ℕ → Bool };

    fn holds(b: u8) -> bool
        ensures { result ≡ member b };
}

// Space and tab.
pub struct Gap;

impl ByteClass for Gap {
    ghost member = { gap };

    fn holds(b: u8) -> bool {
        matches!(b, b' ' | b'\t')
    }
}

// Space, tab, carriage return and line feed.
pub struct White;

impl ByteClass for White {
    ghost member = { white };

    fn holds(b: u8) -> bool {
        matches!(b, b' ' | b'\t' | b'\r' | b'\n')
    }
}

// All but the line feed.
pub struct InLine;

impl ByteClass for InLine {
    ghost member = { in_line };

    fn holds(b: u8) -> bool {
        b != b'\n'
    }
}

// How many bytes of a class come first.
pub fn leading<C: ByteClass>(bytes: &[u8]) -> usize
    ensures is { result ≡ leading_of C.ByteClass.member bytes.now }
    ensures within { result ≤ length bytes.now }
{
    bytes.iter().take_while(|b| C::holds(**b)).count()
}

// How many bytes two rows begin with in common.
pub fn common(a: &[u8], b: &[u8]) -> usize
    ensures is { result ≡ common_of nat_eq a.now b.now }
    ensures within { (result ≤ length a.now) × (result ≤ length b.now) }
{
    alike(a, b)
}

// How many pairs of bytes are alike, from the front on: by itself, since the check follows a chain to a clause that mirrors it and no further.
fn alike(a: &[u8], b: &[u8]) -> usize
    ensures is { result ≡ leading_of (λ p. nat_eq p.0 p.1) (zip a.now b.now) }
    ensures within { (result ≤ length a.now) × (result ≤ length b.now) }
{
    a.iter().zip(b).take_while(|(x, y)| x == y).count()
}

// Whether bytes begin with others: the definition's word for the library's `starts_with`. By `common` it would be `common_begins` that says so, which the edit of this function goes by.
#[tactic(auto, using(crate::proofs::Prefixes::begins_pointwise, crate::proofs::Prefixes::common_begins))]
pub fn starts(bytes: &[u8], prefix: &[u8]) -> bool
    ensures { result ≡ begins prefix.now bytes.now }
{
    bytes.starts_with(prefix)
}
