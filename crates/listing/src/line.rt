ghost use Rattle.std.specs.Prelude.{◌≡◌, ◌+◌, ◌*◌, ◌≤◌, length, IfOk};
ghost use Rattle.token.specs.Told.{refusal, refused, told, told_by};
ghost use Rattle.source.specs.Sources.{text_of};
ghost use Rattle.listing.specs.Laying.{laid};
ghost use Rattle.listing.specs.Lines.{barred, ended, fault_text, laid_out, line_answer, line_buffer, line_in, line_of, too_short_answer};
ghost use Rattle.listing.specs.Writers.{Writes};

use crate::names::name;
use crate::writer::Writer;
use source::Source;
use token::{Fault, Token};

// The longest line: 65 bytes before the first bar, two bars, a line feed, and two bytes for each of a lexeme.
pub const MAX_LINE: usize = 131_140;

// Writes the line of a token, or of the fault that ends a listing, with its line feed into the start of a buffer and answers its length.
pub fn write_line(
    source: &Source,
    entry: Result<Token, Fault>,
    buffer: &mut [u8],
) -> Result<usize, Fault>
    ensures gives { told result ≡ line_answer entry (length buffer.old) (line_in (text_of source.now) entry) }
    ensures fills { buffer.new ≡ line_buffer (line_in (text_of source.now) entry) buffer.old }
    ensures short { length (laid_out (line_in (text_of source.now) entry)) ≤ 131140 }
{
    let line = Line::new(source, entry)?;
    let n = line.lay(&mut []);
    if n > buffer.len() {
        return Err(line.too_short(n as u32));
    }
    line.lay(buffer);
    Ok(n)
}

// What a line tells: a token and its lexeme, or a fault, whose lexeme is empty, as the definition of a line has it.
#[derive(Clone, Copy)]
struct Line<'a> {
    entry: Result<Token, Fault>,
    lexeme: &'a str,
    ghost small: { length lexeme.now ≤ 65536 },
}

impl<'a> Line<'a> {
    // The line of an entry, or the refusal of a token that is not in the text.
    fn new(source: &Source<'a>, entry: Result<Token, Fault>) -> Result<Self, Fault>
        ensures tells { told_by (λ l. line_of entry l.lexeme.now) result ≡ line_in (text_of source.now) entry }
        ensures of { IfOk result (λ l. l.entry ≡ entry) }
    {
        let lexeme = match entry {
            Ok(token) => source.lexeme(token)?,
            Err(_) => "",
        };
        Ok(Line { entry, lexeme })
    }

    // Writes it as far as there is room, and answers its length.
    fn lay(&self, buffer: &mut [u8]) -> usize
        ensures long { result ≡ length (line_of self.now.entry self.now.lexeme.now) }
        ensures short { result ≤ 131140 }
        ensures lays { buffer.new ≡ laid buffer.old 0 (line_of self.now.entry self.now.lexeme.now) }
    {
        let mut out = Writer::new(buffer);
        match self.entry {
            Ok(token) => out.token(token, self.lexeme),
            Err(fault) => out.fault(fault),
        }
        out.place()
    }

    // The refusal of a buffer that is shorter than it is.
    fn too_short(&self, needed: u32) -> Fault
        ensures { refused (refusal result) ≡ too_short_answer self.now.entry needed }
    {
        let (position, length) = match self.entry {
            Ok(token) => (token.position, token.length),
            Err(fault) => (fault.position, fault.length),
        };
        Fault::too_short(position, length, needed)
    }
}

impl Writer<'_> {
    fn token(&mut self, token: Token, lexeme: &str)
        ensures writes { Writes (ended (barred token lexeme.now)) self.old self.new }
        ensures short { length (ended (barred token lexeme.now)) ≤ 68 + 2 * length lexeme.now }
    {
        self.field(token.position.line, b':');
        self.field(token.position.column, b' ');
        self.field(token.position.offset, b' ');
        self.field(token.length, b' ');
        self.put(name(token.kind).as_bytes());
        self.put(b" |");
        self.print(lexeme.as_bytes());
        self.put(b"|\n");
    }

    // Laid here and not by Display: what formats may refuse, and a line is laid without refusing.
    fn fault(&mut self, fault: Fault)
        ensures writes { Writes (ended (fault_text (refusal fault))) self.old self.new }
        ensures short { length (ended (fault_text (refusal fault))) ≤ 61 }
    {
        self.put(b"fault ");
        self.field(fault.cause.number(), b' ');
        self.field(fault.position.line, b':');
        self.field(fault.position.column, b' ');
        self.field(fault.position.offset, b' ');
        self.field(fault.length, b'\n');
    }
}
