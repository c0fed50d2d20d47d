ghost use Rattle.std.specs.Prelude.{◌≡◌, ◌+◌, ◌*◌, ◌^◌, ◌<◌, ◌≤◌, [], ◌∷◌, length, IfOk, Ok, Err, IsUtf8, MatchResult, if◌then◌else◌};
ghost use Rattle.std.proofs.Math.Utf8.{encode};
ghost use Rattle.std.specs.Char.{len_utf8};
ghost use Rattle.std.specs.Str.{chars};
ghost use Rattle.unescape.specs.Escapes.{ended, feed};
ghost use Rattle.unescape.specs.declared.record.State.TheVariants.{Raw, Initial};
ghost use Rattle.text.specs.Fedby.{bytes_of, over, summed};

use unescape::{Escape, Unescape};

// Lays a character into a buffer from a place on, if all of it fits, and answers the place behind it.
fn put(c: char, at: usize, out: &mut [u8]) -> usize
    requires { at < 2 ^ 32 }
    ensures is { result ≡ at + len_utf8 c }
    ensures writes { result ≤ length out.old → out.new ≡ over at (encode c) out.old }
{
    let mut bytes = [0; 4];
    let part = c.encode_utf8(&mut bytes).as_bytes();
    let end = at + part.len();
    if end <= out.len() {
        out[at..end].copy_from_slice(part);
    }
    end
}

// What unescaping gives is laid into a buffer up to a place, as far as all of it fits. Where it is refused, the state is open.
#[derive(Drop)]
pub(crate) struct Writer<'a> {
    machine: Unescape,
    out: &'a mut [u8],
    end: usize,
}

impl<'a> Writer<'a> {
    // At the start of a buffer, with escape sequences or without.
    pub(crate) fn new(out: &'a mut [u8], escapes: bool) -> Self
        ensures state { result.machine.state ≡ (if escapes then Initial else Raw) }
        ensures end { result.end ≡ 0 }
        ensures over { result.out.now ≡ out.old }
        ensures same_reference { result.out.ghost_name ≡ out.entry.ghost_name }
    {
        Writer {
            machine: Unescape::new(escapes),
            out,
            end: 0,
        }
    }

    // What a character gives.
    fn place(&mut self, c: char) -> Result<(), Escape>
        requires { self.old.end < 2 ^ 32 }
        ensures gives { MatchResult result (λ _. summed self.old.end (feed self.old.machine.state (c ∷ [])) ≡ Ok (self.new.machine.state, self.new.end)) (λ e. summed self.old.end (feed self.old.machine.state (c ∷ [])) ≡ Err e) }
        ensures near { self.new.end ≤ self.old.end + 4 }
        ensures writes { IfOk result (λ _. self.new.end ≤ length self.old.out.now → self.new.out.now ≡ over self.old.end (bytes_of (feed self.old.machine.state (c ∷ []))) self.old.out.now) }
        ensures same_length { length self.new.out.now ≡ length self.old.out.now }
        ensures same_reference { self.new.out.ghost_name ≡ self.old.out.ghost_name }
    {
        if let Some(given) = self.machine.step(c)? {
            self.end = put(given, self.end, self.out);
        }
        Ok(())
    }

    // What a piece of text gives.
    pub(crate) fn write(&mut self, text: &str) -> Result<(), Escape>
        requires { self.old.end + 4 * length text.now < 2 ^ 32 }
        ensures gives { MatchResult result (λ _. summed self.old.end (feed self.old.machine.state (chars text.now)) ≡ Ok (self.new.machine.state, self.new.end)) (λ e. summed self.old.end (feed self.old.machine.state (chars text.now)) ≡ Err e) }
        ensures near { IfOk result (λ _. self.new.end ≤ self.old.end + 4 * length text.now) }
        ensures writes { IfOk result (λ _. self.new.end ≤ length self.old.out.now → self.new.out.now ≡ over self.old.end (bytes_of (feed self.old.machine.state (chars text.now))) self.old.out.now) }
        ensures same_length { length self.new.out.now ≡ length self.old.out.now }
        ensures same_reference { self.new.out.ghost_name ≡ self.old.out.ghost_name }
        ensures utf8 { IsUtf8 text.now }
    {
        for c in text.chars() {
            self.place(c)?;
        }
        Ok(())
    }

    // At the end of a text: how many bytes it has, if it may end here.
    pub(crate) fn end(&self) -> Result<usize, Escape>
        ensures { MatchResult result (λ n. (Ok tt ≡ ended self.now.machine.state) × (n ≡ self.now.end)) (λ e. Err e ≡ ended self.now.machine.state) }
    {
        self.machine.end()?;
        Ok(self.end)
    }
}
