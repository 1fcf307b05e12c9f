ghost use Rattle.scx_vm.specs.Laws.{PlainShows, OperationsAreInBounds};

/// The plain machine against the machine: what an operation does to a plain state shows what its
/// instruction does to the state that is shown. The function does nothing: its contract is the law.
pub fn plain_runs_show()
    ensures { PlainShows }
{}

/// An operation finds its memory and its tasks wherever its instruction isn't stuck. The function does
/// nothing: its contract is the law.
pub fn operations_are_in_bounds()
    ensures { OperationsAreInBounds }
{}
