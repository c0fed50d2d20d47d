// A source of tokens without Whitespace, over another source.
#[derive(Drop)]
pub struct Significant<S> {
    pub(crate) below: S,
}
