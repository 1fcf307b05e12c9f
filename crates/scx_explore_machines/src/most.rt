use scx_isa::{Callback, PerCallback};

/// The most instructions that callbacks took so far.
#[derive(Drop)]
pub struct Most {
    most: PerCallback<Option<usize>>,
    /// The most of each callback that took more than before, since that was asked last.
    grown: PerCallback<Option<usize>>,
    has_grown: bool,
}

impl Most {
    /// Nothing has run.
    pub fn none() -> Most {
        Most {
            most: PerCallback::none(),
            grown: PerCallback::none(),
            has_grown: false,
        }
    }

    /// True if some callback took more than before.
    #[inline(always)]
    pub fn has_grown(&self) -> bool {
        self.has_grown
    }

    /// The number of instructions that the callback took, if that is more than before; it is told once.
    pub fn grown(&mut self, callback: Callback) -> Option<u64> {
        match self.grown.take(callback) {
            Some(instructions) => Some(instructions as u64),
            None => None,
        }
    }

    /// All of them were asked.
    pub fn settle(&mut self) {
        self.has_grown = false;
    }

    /// A run of the callback took that many instructions.
    #[inline(always)]
    pub fn keep(&mut self, callback: Callback, instructions: usize) {
        if self.is_more(callback, instructions) {
            self.most.set(callback, Some(instructions));
            self.grown.set(callback, Some(instructions));
            self.has_grown = true;
        }
    }

    #[inline(always)]
    fn is_more(&self, callback: Callback, instructions: usize) -> bool {
        match self.most.get(callback) {
            Some(most) => *most < instructions,
            None => true,
        }
    }
}
