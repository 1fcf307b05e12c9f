ghost use Rattle.std.specs.Prelude.{◌≡◌, ◌≤◌, IfOk, OnOk, IfErr};
ghost use Rattle.scx_isa_semantics.specs.Code.{instruction_count};
ghost use Rattle.scx_vm.specs.Programs.{context};
ghost use Rattle.scx_verify.specs.Typing.{IsTyped};
ghost use Rattle.scx_vm.specs.Safe.{IsSafe};
ghost use Rattle.scx_maps.specs.Limits.{AreWithinLimits};
ghost use Rattle.scx_verify.specs.Operations.{IsReady};
ghost use Rattle.scx_verify.specs.Faults.{IsRefusal, IsJustified};

use crate::faults::VerifyError;
use crate::pass::pass;
use scx_abs::Context;
use scx_isa::{Callback, MAX_SLOTS, Program, Rules, flow};
use scx_maps::MapDefs;
use scx_vm::Packed;
use std::alloc::{AllocError, Global};
use std::marker::Model;

/// A program that was verified, which is safe as that callback, with maps of those shapes, on a machine by
/// those rules. Verification alone makes one.
///
/// In a contract it is the list of the program's slots, and its context: the callback, the shapes and the
/// rules.
#[derive(Drop)]
pub struct Verified {
    ops: Vec<Packed>,
    program: Program,
    context: Context,
}

impl Model for Verified {
    ghost use Rattle.scx_vm.specs.Programs.{VerifiedProgram};
    ghost use Rattle.scx_verify.specs.Operations.{IsReady};
    ghost use Rattle.scx_vm.specs.Safe.{IsSafe};

    ghost Value = { VerifiedProgram };

    ghost view = { λ v. record { code = v.program; context = v.context } };

    ghost invariant = { λ v. IsReady v.context v.program v.ops.items × IsSafe v.context v.program };
}

impl Verified {
    /// The callback that the program was verified for.
    pub fn callback(&self) -> Callback
        ensures { result ≡ self.now.context.callback }
    {
        self.context.callback
    }

    /// A copy of the program, in memory of its own.
    pub fn duplicate(&self, alloc: Global) -> Result<Verified, AllocError>
        ensures { IfOk result (λ copy. copy ≡ self.now) }
    {
        let ops = Vec::from_slice(alloc, &self.ops)?;
        let program = self.program.duplicate(alloc)?;
        Ok(Verified {
            ops,
            program,
            context: self.context,
        })
    }

    /// The shapes of the maps that it was verified for.
    pub fn defs(&self) -> &MapDefs
        ensures { result.now ≡ self.now.context.defs }
    {
        &self.context.defs
    }

    /// The rules of the machine that it was verified for.
    pub fn rules(&self) -> Rules
        ensures { result ≡ self.now.context.rules }
    {
        self.context.rules
    }

    /// The number of its instructions, which is as many steps as a run of it takes at most.
    pub fn instructions(&self) -> usize
        ensures count { result ≡ instruction_count self.now.code }
        ensures most { result ≤ MAX_SLOTS }
    {
        self.program.instructions()
    }

    /// The program that was verified.
    pub fn program(&self) -> &Program
        ensures { result.now ≡ self.now.code }
    {
        &self.program
    }

    /// Its operations, one for each instruction.
    pub fn code(&self) -> &[Packed]
        ensures ready { IsReady self.now.context self.now.code result.now }
        ensures safe { IsSafe self.now.context self.now.code }
        ensures limits { AreWithinLimits self.now.context.defs }
    {
        let _count = self.context.defs.count();
        &self.ops
    }
}

/// Verifies a program for a callback and maps of these shapes, by plain rules, as `verify_by` does.
pub fn verify(
    alloc: Global,
    program: Program,
    callback: Callback,
    defs: &MapDefs,
) -> Result<Verified, VerifyError>
    // What is accepted is that program, for that callback and those maps.
    ensures program { IfOk result (λ verified. verified.code ≡ program) }
    ensures context { IfOk result (λ verified. verified.context ≡ context callback defs.now) }
    // It has a typing, and so it is safe.
    ensures typed { OnOk result (IsTyped (context callback defs.now) program) }
    ensures safe { OnOk result (IsSafe (context callback defs.now) program) }
    // What is refused has that fault first, at that slot.
    ensures refused { IfErr result (IsRefusal (context callback defs.now) program) }
    // And it has no typing, unless memory ran out.
    ensures justified { IfErr result (IsJustified (context callback defs.now) program) }
{
    verify_by(alloc, program, Context::new(callback, *defs))
}

/// Verifies a program for a callback, maps of some shapes and a machine by some rules: asks `flow`, and
/// then goes over the slots once, in order.
///
/// The first faulty instruction is refused, with the first of its checks that fails. An instruction
/// that nothing leads to is looked at by `flow` alone.
pub fn verify_by(alloc: Global, program: Program, context: Context) -> Result<Verified, VerifyError>
    // What is accepted is that program, in that context.
    ensures program { IfOk result (λ verified. verified.code ≡ program) }
    ensures context { IfOk result (λ verified. verified.context ≡ context) }
    // It has a typing, and so it is safe.
    ensures typed { OnOk result (IsTyped context program) }
    ensures safe { OnOk result (IsSafe context program) }
    // What is refused has that fault first, at that slot.
    ensures refused { IfErr result (IsRefusal context program) }
    // And it has no typing, unless memory ran out.
    ensures justified { IfErr result (IsJustified context program) }
{
    flow(&program)?;
    let ops = pass(alloc, &program, &context)?;
    Ok(Verified {
        ops,
        program,
        context,
    })
}
