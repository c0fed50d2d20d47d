// The whole listing of a text.

#![tactic(auto)]

mod growing;

ghost use Rattle.std.specs.Prelude.{◌≡◌, ◌++◌, IfOk, OnOk};
ghost use Rattle.lister.specs.Listings.{listing, sound};
ghost use Rattle.lister.specs.Samples.{Sample};

use crate::growing::Listing;
use listing::MAX_LINE;
use source::Source;
use std::alloc::{AllocError, Global};

// Appends the line of each token of a text, or of the fault that ends them, and answers whether there was none; what the fault is stands in its line.
pub fn list(heap: Global, bytes: &[u8], out: &mut Vec<u8>) -> Result<bool, AllocError>
    ensures tells { IfOk result (λ whole. whole ≡ sound bytes.now) }
    ensures appends { OnOk result (out.new.items ≡ out.old.items ++ listing bytes.now) }
{
    let mut line = vec![in heap; 0u8; MAX_LINE]?;
    let mut source = Source::new();
    let admitted = source.admit(bytes);
    let mut listing = Listing {
        source,
        line: line.as_mut_slice(),
        out,
    };
    match admitted {
        Ok(()) => listing.append_tokens(),
        Err(fault) => listing.append_fault(fault),
    }
}

// A worked example: the listing of an identifier and a line feed.
pub fn sample_holds()
    ensures { Sample }
{}
