// A writer over the caller's bytes.

ghost use Rattle.std.specs.Prelude.{◌≡◌, ◌^◌, ◌<◌, [], ◌∷◌, length, decimal};
ghost use Rattle.listing.specs.Laying.{laid};
ghost use Rattle.listing.specs.Lines.{field as field_of, printed, shown as shown_as};

use itoa::Buffer;

// Lays bytes over a buffer as far as there is room, and keeps the place behind them. Past the end it only counts.
#[derive(Drop)]
pub(crate) struct Writer<'a> {
    out: &'a mut [u8],
    place: usize,
    ghost small: { length out.now < 2 ^ 64 },
}

impl<'a> Writer<'a> {
    ghost use Rattle.listing.specs.Writers.{Writes};

    // At the start of a buffer.
    pub(crate) fn new(out: &'a mut [u8]) -> Self
        ensures start { result.place ≡ 0 }
        ensures over { result.out.now ≡ out.old }
        ensures same_reference { result.out.ghost_name ≡ out.entry.ghost_name }
    {
        Writer { out, place: 0 }
    }

    // How many bytes were given to it.
    pub(crate) fn place(&self) -> usize
        ensures { result ≡ self.now.place }
    {
        self.place
    }

    // Bytes as they are.
    pub(crate) fn put(&mut self, bytes: &[u8])
        ensures { Writes bytes.now self.old self.new }
    {
        lay(self.out, self.place, bytes);
        self.place = self.place.saturating_add(bytes.len());
    }

    // A number in decimal.
    fn number(&mut self, n: u32)
        ensures { Writes (decimal n) self.old self.new }
    {
        self.put(Buffer::new().format(n).as_bytes());
    }

    // One byte: stored, since a copy of one byte is a call, and a lexeme is printed byte by byte.
    fn push(&mut self, b: u8)
        ensures { Writes (b ∷ []) self.old self.new }
    {
        store(self.out, self.place, b);
        self.place = self.place.saturating_add(1);
    }

    // A number in decimal, and a byte behind it.
    pub(crate) fn field(&mut self, n: u32, b: u8)
        ensures { Writes (field_of n b) self.old self.new }
    {
        self.number(n);
        self.push(b);
    }

    // A backslash and a letter, with the place moved once.
    fn escape(&mut self, letter: u8)
        ensures { Writes (92 ∷ letter ∷ []) self.old self.new }
    {
        store_pair(self.out, self.place, b'\\', letter);
        self.place = self.place.saturating_add(2);
    }

    // A byte as it is shown: line feed, carriage return and tab by a backslash and a letter.
    fn show(&mut self, b: u8)
        ensures { Writes (shown_as b) self.old self.new }
    {
        match b {
            b'\n' => self.escape(b'n'),
            b'\r' => self.escape(b'r'),
            b'\t' => self.escape(b't'),
            _ => self.push(b),
        }
    }

    // Bytes as they are shown.
    pub(crate) fn print(&mut self, bytes: &[u8])
        ensures { Writes (printed bytes.now) self.old self.new }
    {
        for b in bytes {
            self.show(*b);
        }
    }
}

// Lays one byte over others at a place, if they reach so far.
fn store(out: &mut [u8], place: usize, b: u8)
    ensures { out.new ≡ laid out.old place (b ∷ []) }
{
    if place < out.len() {
        out[place] = b;
    }
}

// Lays two, the second where the first has room.
fn store_pair(out: &mut [u8], place: usize, a: u8, b: u8)
    ensures { out.new ≡ laid out.old place (a ∷ b ∷ []) }
{
    if place < out.len() {
        out[place] = a;
        store(out, place + 1, b);
    }
}

// Lays bytes over others from a place on, as far as the others reach.
fn lay(out: &mut [u8], place: usize, bytes: &[u8])
    ensures { out.new ≡ laid out.old place bytes.now }
{
    if place < out.len() {
        let n = bytes.len().min(out.len() - place);
        out[place..place + n].copy_from_slice(&bytes[..n]);
    }
}
