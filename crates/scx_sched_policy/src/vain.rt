//! Programs of dispatch that do nothing but move tasks, and from which queues.
ghost use Rattle.std.specs.Prelude.{◌≡◌, ◌≤◌, option_map, IfSome};
ghost use Rattle.scx_isa_semantics.specs.HostTables.{helper_at};
ghost use Rattle.scx_sched_policy.specs.Vain.{queues_in, one_more, both_known, sets, forward, test_of, tested, moved, called, part_of, known_after, jumped, walk, vain_queues, OnlyAsks, nobody_in};

use scx_isa::{Comparison, Helper, Insn, Operand, Operation, Program, Register, Width};
use scx_isa_semantics::{immediate, low, wide_immediate};
use scx_sched_world::World;
use std::cmp;

/// The most instructions that a walk looks at.
const MOST_STEPS: usize = 64;

/// When a jump is made.
#[derive(Clone, Copy)]
pub(crate) enum When {
    Always,
    /// If r0 holds 0.
    OnZero,
    /// If r0 holds another number.
    OnOther,
}

/// An instruction as a walk over a program that only moves tasks sees it.
#[derive(Clone, Copy)]
pub(crate) enum Part {
    /// It sets a register to a number.
    Sets(Register, u64),
    /// It jumps over that many slots.
    Jumps(When, u16),
    /// It moves a task from the queue in r1.
    Moves,
    Ends,
    Other,
}

/// Registers as far as a walk knows them.
#[derive(Clone, Copy)]
pub(crate) struct Known {
    /// True if r0 holds 0, and that is known.
    pub(crate) is_zero: bool,
    /// The number in r1, if it is known.
    pub(crate) first: Option<u64>,
}

/// The queues that a program asks for a task, one after another.
#[derive(Clone, Copy)]
pub enum Asked {
    Nothing,
    One(u64),
    Two(u64, u64),
    Three(u64, u64, u64),
}

impl Asked {
    /// These queues after that one, if there is room.
    fn after(self, queue: u64) -> Option<Asked>
        ensures { option_map queues_in result ≡ one_more queue (queues_in self) }
    {
        match self {
            Asked::Nothing => Some(Asked::One(queue)),
            Asked::One(second) => Some(Asked::Two(queue, second)),
            Asked::Two(second, third) => Some(Asked::Three(queue, second, third)),
            Asked::Three(..) => None,
        }
    }
}

impl Known {
    /// With that number in the register.
    fn after(self, register: Register, number: u64) -> Known
        ensures { result ≡ known_after self register number }
    {
        match register {
            Register::R0 => Known {
                is_zero: false,
                first: self.first,
            },
            Register::R1 => Known {
                is_zero: self.is_zero,
                first: Some(number),
            },
            _ => self,
        }
    }

    /// The slot after the one with that jump, if it is known.
    fn jumped(self, when: When, slot: usize, distance: u16) -> Option<usize>
        requires { slot ≤ 4096 }
        ensures { result ≡ jumped self when slot distance }
    {
        let next = slot + 1;
        match when {
            When::Always => Some(next + usize::from(distance)),
            When::OnZero => if self.is_zero {
                Some(next + usize::from(distance))
            } else {
                None
            },
            When::OnOther => if self.is_zero { Some(next) } else { None },
        }
    }
}

/// A register set to a number.
fn sets(register: Register, number: u64) -> Part
    ensures { result ≡ sets register number }
{
    match register {
        Register::R10 => Part::Other,
        _ => Part::Sets(register, number),
    }
}

/// A jump over that many slots, which goes on.
fn forward(when: When, distance: i16) -> Part
    ensures { result ≡ forward when distance }
{
    if distance < 0 {
        Part::Other
    } else {
        Part::Jumps(when, distance.cast_unsigned())
    }
}

/// A jump by a comparison of r0 with 0.
fn test_of(comparison: Comparison, distance: i16) -> Part
    ensures { result ≡ test_of comparison distance }
{
    match comparison {
        Comparison::Equal => forward(When::OnZero, distance),
        Comparison::NotEqual => forward(When::OnOther, distance),
        _ => Part::Other,
    }
}

/// A jump by a comparison.
fn tested(register: Register, operand: Operand, comparison: Comparison, distance: i16) -> Part
    ensures { result ≡ tested register operand comparison distance }
{
    match (register, operand) {
        (Register::R0, Operand::Immediate(number)) => {
            if number == 0 {
                test_of(comparison, distance)
            } else {
                Part::Other
            }
        }
        _ => Part::Other,
    }
}

/// An operation with two operands.
fn moved(width: Width, operation: Operation, register: Register, operand: Operand) -> Part
    ensures { result ≡ moved width operation register operand }
{
    match (operation, operand) {
        (Operation::Move, Operand::Immediate(number)) => {
            sets(register, low(width, immediate(width, number)))
        }
        _ => Part::Other,
    }
}

/// A call of a helper.
fn called(helper: Option<Helper>) -> Part
    ensures { result ≡ called helper }
{
    match helper {
        Some(Helper::DsqMoveToLocal) => Part::Moves,
        _ => Part::Other,
    }
}

/// The instruction as a walk sees it.
fn part_of(insn: Insn) -> Part
    ensures { result ≡ part_of insn }
{
    match insn {
        Insn::Binary(width, operation, register, operand) => {
            moved(width, operation, register, operand)
        }
        Insn::LoadImmediate(register, low, high) => sets(register, wide_immediate(low, high)),
        Insn::JumpIf {
            comparison,
            register,
            operand,
            distance,
            ..
        } => tested(register, operand, comparison, distance),
        Insn::Goto(distance) => forward(When::Always, distance),
        Insn::Call(number) => called(Helper::new(number)),
        Insn::Exit => Part::Ends,
        _ => Part::Other,
    }
}

/// A queue before the others, if both are known.
fn both_known(queue: Option<u64>, rest: Option<Asked>) -> Option<Asked>
    ensures { option_map queues_in result ≡ both_known queue (option_map queues_in rest) }
{
    match (queue, rest) {
        (Some(queue), Some(rest)) => rest.after(queue),
        _ => None,
    }
}

/// The queues that the program asks from that slot on, in at most that many steps, where each has no task.
fn walk(program: &Program, left: usize, slot: usize, known: Known) -> Option<Asked>
    ensures { option_map queues_in result ≡ walk program.now left slot known }
{
    if left == 0 || slot >= program.slots() {
        return None;
    }
    let insn = program.at(slot)?;
    match part_of(insn) {
        Part::Sets(register, number) => {
            walk(
                program,
                left - 1,
                slot + insn.size(),
                known.after(register, number),
            )
        }
        Part::Jumps(when, distance) => {
            let to = known.jumped(when, slot, distance)?;
            walk(program, left - 1, to, known)
        }
        Part::Moves => {
            let after = Known {
                is_zero: true,
                first: None,
            };
            both_known(known.first, walk(program, left - 1, slot + 1, after))
        }
        Part::Ends => Some(Asked::Nothing),
        Part::Other => None,
    }
}

/// The queues that a program of dispatch asks if each has no task, and it does nothing else.
#[tactic(auto, using(crate::proofs::InVain::means))]
pub(crate) fn asked_by(program: &Program) -> Option<Asked>
    ensures asked { option_map queues_in result ≡ vain_queues program.now }
    ensures only { IfSome result (λ asked. OnlyAsks program.now (queues_in asked)) }
{
    walk_from_start(program)
}

/// `walk`, from the first slot on.
#[tactic(auto, unfolding(crate::specs::Vain::vain_queues))]
fn walk_from_start(program: &Program) -> Option<Asked>
    ensures { option_map queues_in result ≡ vain_queues program.now }
{
    let nothing = Known {
        is_zero: false,
        first: None,
    };
    walk(
        program,
        cmp::min(MOST_STEPS, program.instructions()),
        0,
        nothing,
    )
}

/// True if all these queues of the policy are there, and no task waits in them that may run on the CPU.
#[inline(always)]
pub fn nobody_in(world: &World, cpu: u32, asked: Asked) -> bool
    ensures { result ≡ nobody_in world.now cpu (queues_in asked) }
{
    match asked {
        Asked::Nothing => true,
        Asked::One(first) => world.has_none_for(first, cpu),
        Asked::Two(first, second) => {
            world.has_none_for(second, cpu) && world.has_none_for(first, cpu)
        }
        Asked::Three(first, second, third) => {
            (world.has_none_for(third, cpu) && world.has_none_for(second, cpu))
                && world.has_none_for(first, cpu)
        }
    }
}
