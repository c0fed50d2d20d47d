ghost use Rattle.std.specs.Prelude.{◌≡◌, true};
ghost use Rattle.unindent.specs.Lines.{all_roomy_for, lines as lines_of};

// The pieces that are still to come of a text: its lines, each with so many bytes of indentation removed, or the text as it stands. `first` changes from line to line and `indent` does not, so they stand apart.
#[derive(Clone, Copy)]
pub struct Pieces<'a> {
    pub(crate) rest: &'a str,
    pub(crate) first: bool,
    pub(crate) indent: Option<usize>,
    ghost room: { all_roomy_for indent (lines_of rest.now) ≡ true },
}
