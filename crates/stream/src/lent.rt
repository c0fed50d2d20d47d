// A source that is lent to a layer, under a name of its own. `R` is a reference to it: a struct over a session itself has no generated proof.
#[derive(Drop)]
pub struct Lent<R> {
    pub(crate) source: R,
}
