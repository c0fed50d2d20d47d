ghost use Rattle.std.specs.Prelude.{◌≡◌, ◌<◌, ◌≤◌, [], ◌∷◌, length, take, set as put_at, if◌then◌else◌, nat_le, slice_index_or, Ok, Err};
ghost use Rattle.stack.specs.Held.{held, stacked, room as room_of, fits, first, behind, at as entry_at};

use crate::record::Stack;

// The first elements of a table.
fn front<T: Copy>(slots: &[T], n: usize) -> &[T]
    requires { n ≤ length slots.now }
    ensures { result.now ≡ take n slots.now }
{
    &slots[0..n]
}

// Writes one element of a table.
fn store<T: Copy + Drop>(slots: &mut [T], i: usize, x: T)
    requires { i < length slots.old }
    ensures { slots.new ≡ put_at slots.old i x }
{
    slots[i] = x;
}

impl<'t, T: Copy + Drop> Stack<'t, T> {
    // An empty stack over a table.
    pub fn new(slots: &'t mut [T]) -> Self
        ensures holds { stacked result ≡ [] }
        ensures rooms { room_of result ≡ length slots.old }
    {
        Stack { slots, count: 0 }
    }

    // How many entries it has.
    pub fn len(&self) -> usize
        ensures { result ≡ length (held self.now) }
    {
        self.count.min(self.slots.len())
    }

    // The entry at a place, the oldest at 0.
    pub fn get(&self, i: usize) -> Option<T>
        ensures { result ≡ entry_at (held self.now) i }
    {
        self.entries().get(i).copied()
    }

    // All entries, the oldest first.
    pub fn entries(&self) -> &[T]
        ensures { result.now ≡ held self.now }
    {
        front(self.slots, self.len())
    }

    // The newest entry.
    pub fn top(&self) -> Option<T>
        ensures { result ≡ first (stacked self.now) }
    {
        self.entries().last().copied()
    }

    // Whether no entry more fits.
    pub fn is_full(&self) -> bool
        ensures { result ≡ nat_le (room_of self.now) (length (stacked self.now)) }
    {
        self.slots.len() <= self.len()
    }

    // One entry more; where the table is full the element comes back, and nothing has changed.
    pub fn push(&mut self, x: T) -> Result<(), T>
        ensures answer { result ≡ (if fits self.old then Ok tt else Err x) }
        ensures holds { stacked self.new ≡ (if fits self.old then x ∷ stacked self.old else stacked self.old) }
        ensures rooms { room_of self.new ≡ room_of self.old }
    {
        let n = self.len();
        if n < self.slots.len() {
            store(self.slots, n, x);
            self.count = n + 1;
            Ok(())
        } else {
            Err(x)
        }
    }

    // Takes the newest entry off.
    pub fn pop(&mut self) -> Option<T>
        ensures answer { result ≡ first (stacked self.old) }
        ensures holds { stacked self.new ≡ behind (stacked self.old) }
        ensures rooms { room_of self.new ≡ room_of self.old }
    {
        let newest = self.top();
        self.count = self.len().saturating_sub(1);
        newest
    }

    // Takes every entry off.
    pub fn clear(&mut self)
        ensures holds { stacked self.new ≡ [] }
        ensures rooms { room_of self.new ≡ room_of self.old }
    {
        self.count = 0;
    }
}
