ghost use Rattle.std.specs.Prelude.{◌≡◌, Bool, false};

use crate::state::Core;

/// A watch of a run: it sees each instruction before it is done, and awaits something of the host.
pub trait Watch<E> {
    /// The event that is awaited of the host.
    ghost awaited: { E → Bool };

    /// True if that has come about.
    fn has_come(&self, env: &E) -> bool
        ensures { result ≡ awaited env.now };

    /// The instruction at that slot is done next, on these registers.
    fn see(&mut self, slot: usize, core: &Core, env: &E);
}

/// The watch of `run_unwatched`, which awaits nothing.
#[derive(Drop)]
pub(crate) struct Unwatched;

impl<E> Watch<E> for Unwatched {
    ghost awaited = { λ w. false };

    fn has_come(&self, _env: &E) -> bool {
        false
    }

    fn see(&mut self, _slot: usize, _core: &Core, _env: &E) {}
}
