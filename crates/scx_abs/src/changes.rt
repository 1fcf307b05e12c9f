ghost use Rattle.std.specs.Prelude.{◌≡◌};
ghost use Rattle.scx_abs.specs.Changes.{after_change, next_of};

use crate::kinds::{CELL_BYTES, Kind};
use crate::rules::Next;
use crate::states::{AbsState, CELLS};
use scx_isa::{Register, Size};

/// A change of a state: of its registers, and of the bytes of the stack that a helper writes.
#[derive(Clone, Copy)]
pub enum Change {
    /// No register gets another kind.
    Nothing,
    /// The register gets that kind.
    Register(Register, Kind),
    /// A helper answered a value of that kind.
    Called(Kind),
    /// A helper answered a value of that kind, and wrote that many bytes of the stack from one on.
    Filled(Kind, u16, u16),
}

/// Where control goes on from an instruction, and what changes on the way.
#[derive(Clone, Copy)]
pub enum Flow {
    /// The program ends.
    End,
    /// To the next instruction.
    On(Change),
    /// To the jump's target.
    Jump(Change),
    /// To the next instruction, and to the jump's target.
    Both(Change, Change),
}

impl AbsState {
    ghost use Rattle.scx_abs.specs.Calls.{after_call, with_byte, with_written};

    /// Changes the state in place.
    #[inline(always)]
    pub(crate) fn change(&mut self, change: &Change)
        ensures { self.new ≡ after_change self.old change.now }
    {
        match *change {
            Change::Nothing => (),
            Change::Register(register, kind) => self.set(register, kind),
            Change::Called(answer) => self.call(answer),
            Change::Filled(answer, at, count) => {
                self.fill(at, count);
                self.call(answer);
            }
        }
    }

    /// Changes the registers as the call of a helper does.
    fn call(&mut self, answer: Kind)
        ensures { self.new ≡ after_call self.old answer }
    {
        self.registers[1] = Kind::Unusable;
        self.registers[2] = Kind::Unusable;
        self.registers[3] = Kind::Unusable;
        self.registers[4] = Kind::Unusable;
        self.registers[5] = Kind::Unusable;
        self.registers[0] = answer;
    }

    /// Numbers are written to that many bytes of the stack, from one on.
    #[inline(never)]
    fn fill(&mut self, at: u16, count: u16)
        ensures { self.new ≡ with_written self.old at count }
    {
        for byte in usize::from(at)..usize::from(at) + usize::from(count) {
            self.fill_byte(byte);
        }
    }

    /// A number is written to that byte of the stack, if there is one.
    #[tactic(auto, using(crate::proofs::Fillings::past_stack))]
    fn fill_byte(&mut self, at: usize)
        ensures { self.new ≡ with_byte self.old at }
    {
        if at / CELL_BYTES < CELLS {
            self.mark(at / CELL_BYTES, Size::Byte, at % CELL_BYTES);
        }
    }

    /// The state, changed.
    fn after_change(&self, change: &Change) -> AbsState
        ensures { result ≡ after_change self.now change.now }
    {
        let mut state = *self;
        state.change(change);
        state
    }
}

/// The states that a flow sends on.
pub(crate) fn next_of(state: &AbsState, flow: &Flow) -> Next
    ensures { result ≡ next_of state.now flow.now }
{
    match *flow {
        Flow::End => Next {
            on: None,
            jump: None,
        },
        Flow::On(change) => Next {
            on: Some(state.after_change(&change)),
            jump: None,
        },
        Flow::Jump(change) => Next {
            on: None,
            jump: Some(state.after_change(&change)),
        },
        Flow::Both(on, jump) => Next {
            on: Some(state.after_change(&on)),
            jump: Some(state.after_change(&jump)),
        },
    }
}
