ghost use Rattle.std.specs.Prelude.{◌≡◌, true};
ghost use Rattle.utf8.specs.Utf8.{bound};
ghost use Rattle.source.specs.Cursors.{ahead};
ghost use Rattle.source.specs.Places.{walk};

use source::Cursor;
use token::Position;

// Passes so many bytes, which are whole characters.
pub(crate) fn pass(cursor: &mut Cursor<'_>, n: usize)
    requires { bound (ahead cursor.old) n ≡ true }
    ensures of { cursor.new.source ≡ cursor.old.source }
    ensures at { cursor.new.position ≡ walk n (ahead cursor.old) cursor.old.position }
{
    // No `for`: the cursor is what moves, and it alone knows where a character ends.
    let end = cursor.position().offset as usize + n;
    while (cursor.position().offset as usize) < end {
        cursor.advance();
    }
}

// The place so many bytes on, which are whole characters.
pub(crate) fn place_behind(mut cursor: Cursor<'_>, n: usize) -> Position
    requires { bound (ahead cursor) n ≡ true }
    ensures { result ≡ walk n (ahead cursor.entry) cursor.entry.position }
{
    pass(&mut cursor, n);
    cursor.position()
}
