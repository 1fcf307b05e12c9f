/// Is told how far a search is.
pub trait Watcher {
    /// All lists of `depth` steps were tried, and `states` states were met, which take that many bytes. Whatever is
    /// made of it, the search is the same.
    fn watch(&mut self, depth: usize, states: usize, bytes: usize);

    /// Something is about to be written.
    fn pause(&mut self) {}
}

/// A watcher that does nothing.
#[derive(Drop)]
pub struct Unwatched;

impl Watcher for Unwatched {
    fn watch(&mut self, _depth: usize, _states: usize, _bytes: usize) {}
}
