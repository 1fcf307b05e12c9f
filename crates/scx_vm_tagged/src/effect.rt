/// The outcome of an instruction, apart from the state that it left.
#[derive(Clone, Copy)]
pub enum Effect {
    /// Nothing: it has no meaning in the state that it found.
    Stuck,
    /// Control goes on to the next instruction.
    Next,
    /// Control goes to the jump's target.
    Jumped,
    /// The run ended with this answer.
    Ended(u64),
}
