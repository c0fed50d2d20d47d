ghost use Rattle.std.specs.Prelude.{◌≡◌, ℕ, ◌<◌, ◌≤◌, List, ◌∷◌, drop, length, IfSome};
ghost use Rattle.utf8.specs.Utf8.{among, character as character_of, counted, rows, shown_length};

// How many bytes the character has that the bytes begin with, if they begin with one.
pub fn character(bytes: &[u8]) -> Option<usize>
    ensures is { result ≡ counted (character_of bytes.now) }
    ensures within { IfSome result (λ n. (0 < n) × (n ≤ length bytes.now)) }
{
    row(bytes)
}

// The length of the first row of the grammar that the bytes begin with: by itself, since what `character` means is not unfolded where it is promised. The first four rows stand apart, each with those behind it: a match on all nine at once asks how many bytes there are before it looks at the first, which takes up to five times as long.
fn row(bytes: &[u8]) -> Option<usize>
    ensures { result ≡ counted (among rows bytes.now) }
{
    match bytes {
        [0x00..=0x7F, ..] => Some(1),
        _ => row_of_two(bytes),
    }
}

// Behind the row of one byte.
fn row_of_two(bytes: &[u8]) -> Option<usize>
    ensures { result ≡ counted (among (drop 1 rows) bytes.now) }
{
    match bytes {
        [0xC2..=0xDF, 0x80..=0xBF, ..] => Some(2),
        _ => row_of_three(bytes),
    }
}

// Behind that of two bytes.
fn row_of_three(bytes: &[u8]) -> Option<usize>
    ensures { result ≡ counted (among (drop 2 rows) bytes.now) }
{
    match bytes {
        [0xE0, 0xA0..=0xBF, 0x80..=0xBF, ..] => Some(3),
        _ => row_before_surrogates(bytes),
    }
}

// Behind the first of three bytes.
fn row_before_surrogates(bytes: &[u8]) -> Option<usize>
    ensures { result ≡ counted (among (drop 3 rows) bytes.now) }
{
    match bytes {
        [0xE1..=0xEC, 0x80..=0xBF, 0x80..=0xBF, ..] => Some(3),
        _ => row_of_more(bytes),
    }
}

// Behind the second of three bytes.
fn row_of_more(bytes: &[u8]) -> Option<usize>
    ensures { result ≡ counted (among (drop 4 rows) bytes.now) }
{
    match bytes {
        [0xED, 0x80..=0x9F, 0x80..=0xBF, ..] => Some(3),
        [0xEE..=0xEF, 0x80..=0xBF, 0x80..=0xBF, ..] => Some(3),
        [0xF0, 0x90..=0xBF, 0x80..=0xBF, 0x80..=0xBF, ..] => Some(4),
        [0xF1..=0xF3, 0x80..=0xBF, 0x80..=0xBF, 0x80..=0xBF, ..] => Some(4),
        [0xF4, 0x80..=0x8F, 0x80..=0xBF, 0x80..=0xBF, ..] => Some(4),
        _ => None,
    }
}

// How many bytes a character has, by its first: one, or as many as that shows leading one bits. The grammar says the same of every character.
pub fn character_length(first: u8) -> usize
    ensures shows { result ≡ shown_length first }
    ensures agrees { (rest : List ℕ) → 0 < character_of (first ∷ rest) → result ≡ character_of (first ∷ rest) }
{
    let ones = first.leading_ones() as usize;
    if ones == 0 { 1 } else { ones }
}
