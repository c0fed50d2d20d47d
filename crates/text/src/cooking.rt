ghost use Rattle.std.specs.Prelude.{◌≡◌, ◌*◌, ◌≤◌, length, IfOk, IsUtf8};
ghost use Rattle.std.specs.List.{flat_map};
ghost use Rattle.unindent.specs.Left.{left};
ghost use Rattle.text.specs.Cooked.{cooked, flat};
ghost use Rattle.text.specs.Fedby.{from_ok, onto, sized};

use crate::feeding::Writer;
use crate::literal::Literal;
use unescape::Escape;
use unindent::Pieces;

impl<'a> Literal<'a> {
    // The pieces of what stands between the delimiters, unindented where there are three quotes.
    fn pieces(self) -> Pieces<'a>
        ensures of { result.rest.now ≡ self.entry.inner.now }
        ensures utf8 { IsUtf8 result.rest.now }
        ensures gives { flat_map (λ p. p) (left result) ≡ flat self.entry.kind self.entry.inner.now }
    {
        if self.kind.indented {
            Pieces::unindented(self.inner)
        } else {
            Pieces::whole(self.inner)
        }
    }

    // Lays the text into the start of a buffer, as far as all of it fits, and answers its length; or why it is refused.
    pub(crate) fn lay(self, out: &mut [u8]) -> Result<usize, Escape>
        ensures gives { result ≡ sized (cooked self.entry.kind self.entry.inner.now) }
        ensures small { IfOk result (λ n. n ≤ 4 * 65536) }
        ensures fills { IfOk result (λ n. n ≤ length out.old → out.new ≡ onto (from_ok (cooked self.entry.kind self.entry.inner.now)) out.old) }
    {
        let mut writer = Writer::new(out, self.kind.processes_escape_sequences());
        for piece in self.pieces() {
            writer.write(piece)?;
        }
        writer.end()
    }
}
