ghost use Rattle.std.specs.Prelude.{◌≡◌, ◌<◌, true, false, Some, IfSome};
ghost use Rattle.scx_verify_explain.specs.Lost.{is_same, is_operand, is_register, computed_role, compared_role};
ghost use Rattle.scx_verify_explain.specs.Lost.{written_role, role_of, source_by, greatest, is_same_greatest};
ghost use Rattle.scx_verify_explain.specs.Lost.{kind_before, greatest_before, is_sought, IsOnly, IsOnlyOf, IsOnlyStep, NeverLeads};
ghost use Rattle.scx_verify_explain.specs.Lost.{BringsGreatest, IsStep, IsStepBy, IsFound, IsTraced, IsLostAt};

use crate::listing::{Listing, Way};
use crate::named::{address_of, written_register};
use crate::origins::Brought;
use crate::places::{Memory, Reach};
use crate::reasons::BadAccess;
use scx_abs::Kind;
use scx_isa::{Insn, Operand, Operation, Register, Width};

/// A register before the instruction at a slot.
#[derive(Clone, Copy)]
pub struct Point {
    pub slot: usize,
    pub register: Register,
}

/// An instruction's use of a register.
#[derive(Clone, Copy)]
pub(crate) enum Role {
    /// A conditional jump compares it.
    Compared,
    /// It becomes a copy of that one.
    Copied(Register),
    /// 64-bit arithmetic with a number in the text changes it.
    Computed,
    /// Another register is added to it.
    Moved(Register),
    /// It is written otherwise.
    Written,
    Untouched,
}

/// An instruction that is looked for on the way back.
#[derive(Clone, Copy)]
pub(crate) enum Sought {
    /// It makes the number in the register, or changes its greatest value by arithmetic.
    Write,
    /// It adds a register to it.
    Move,
    /// It is a conditional jump that compares the register.
    Comparison,
    /// So it is, and afterwards the greatest number is another.
    Cut,
}

/// An instruction on the way by which control came.
#[derive(Clone, Copy)]
pub struct Found {
    pub slot: usize,
    pub instruction: Insn,
    /// The register, and its kinds before and after the instruction.
    pub register: Register,
    pub before: Kind,
    pub after: Kind,
    /// True if control always comes by this instruction.
    pub is_only: bool,
}

/// The number by which a pointer came out of its memory.
#[derive(Clone, Copy)]
pub struct LostRange {
    /// The instruction that added it, the refused one or the last move before that, and the pointer there.
    pub pointer: Point,
    /// True if control always comes by that instruction.
    pub is_only: bool,
    /// The register of the number there, and its kind.
    pub number: Register,
    pub known: Kind,
    /// The last move of the pointer before.
    pub moved: Option<Found>,
    /// The last instruction that made the number, or changed its greatest value.
    pub write: Option<Found>,
    /// The last comparison that changed its greatest value.
    pub cut: Option<Found>,
    /// The last comparison of it.
    pub comparison: Option<Found>,
}

/// A way back, and whether control always came by it.
#[derive(Clone, Copy)]
struct Walk {
    point: Point,
    is_only: bool,
}

/// A step back.
#[derive(Clone, Copy)]
enum Step {
    /// By an instruction that was looked for.
    Found(Found),
    /// By another.
    Earlier(Walk),
}

/// True if it is the same register.
fn is_same(one: Register, other: Register) -> bool
    ensures { result ≡ is_same one other }
{
    one.number() == other.number()
}

fn is_operand(operand: Operand, register: Register) -> bool
    ensures { result ≡ is_operand operand register }
{
    match operand {
        Operand::Immediate(_) => false,
        Operand::Register(other) => is_same(other, register),
    }
}

fn is_register(written: Option<Register>, register: Register) -> bool
    ensures { result ≡ is_register written register }
{
    match written {
        Some(written) => is_same(written, register),
        None => false,
    }
}

/// The use that arithmetic makes of its destination.
fn computed_role(width: Width, operation: Operation, operand: Operand) -> Role
    ensures { result ≡ computed_role width operation operand }
{
    match (width, operation, operand) {
        (Width::Bits64, Operation::Move, Operand::Register(source)) => Role::Copied(source),
        (Width::Bits64, Operation::Move, Operand::Immediate(_)) => Role::Written,
        (Width::Bits64, Operation::Add, Operand::Register(source)) => Role::Moved(source),
        (Width::Bits64, _, Operand::Immediate(_)) => Role::Computed,
        _ => Role::Written,
    }
}

/// An instruction's use of a register. A call leaves nothing of r0 to r5.
pub(crate) fn role_of(insn: Insn, register: Register) -> Role
    ensures { result ≡ role_of insn register }
{
    match insn {
        Insn::Binary(width, operation, destination, operand) => {
            if is_same(destination, register) {
                computed_role(width, operation, operand)
            } else {
                Role::Untouched
            }
        }
        Insn::JumpIf {
            register: compared,
            operand,
            ..
        } => compared_role(compared, operand, register),
        Insn::Call(_) => written_role(register.number() <= 5),
        _ => written_role(is_register(written_register(insn), register)),
    }
}

/// The use that a conditional jump makes of a register.
fn compared_role(compared: Register, operand: Operand, register: Register) -> Role
    ensures { result ≡ compared_role compared operand register }
{
    if is_same(compared, register) || is_operand(operand, register) {
        Role::Compared
    } else {
        Role::Untouched
    }
}

fn written_role(is_written: bool) -> Role
    ensures { result ≡ written_role is_written }
{
    if is_written {
        Role::Written
    } else {
        Role::Untouched
    }
}

/// The register from which the register's value comes; `None` where it is new.
fn source_by(role: Role, register: Register) -> Option<Register>
    ensures { result ≡ source_by role register }
{
    match role {
        Role::Copied(source) => Some(source),
        Role::Moved(_) | Role::Written => None,
        _ => Some(register),
    }
}

/// The greatest number of a kind, or the greatest offset.
pub(crate) fn greatest(kind: &Kind) -> Option<u64>
    ensures { result ≡ greatest kind.now }
{
    match *kind {
        Kind::Num(numbers) => Some(numbers.range().high),
        Kind::Elem(_, offsets) => Some(offsets.range().high),
        _ => None,
    }
}

fn is_same_greatest(one: Option<u64>, other: Option<u64>) -> bool
    ensures { result ≡ is_same_greatest one other }
{
    match (one, other) {
        (None, None) => true,
        (Some(one), Some(other)) => one == other,
        _ => false,
    }
}

/// The kind of a register at a slot, where anything is known.
fn kind_before(listing: &Listing, point: Point) -> Option<Kind>
    ensures { result ≡ kind_before listing.now point }
{
    Some(listing.state(point.slot)?.kind(point.register))
}

/// The greatest number of a register at a slot.
fn greatest_before(listing: &Listing, point: Point) -> Option<u64>
    ensures { result ≡ greatest_before listing.now point }
{
    greatest(&kind_before(listing, point)?)
}

/// True if an instruction with that use of a register is looked for, with its greatest number before and after.
fn is_sought(sought: Sought, role: Role, before: Option<u64>, after: Option<u64>) -> bool
    ensures { result ≡ is_sought sought role before after }
{
    match (sought, role) {
        (Sought::Write, Role::Written | Role::Moved(_)) => true,
        (Sought::Move, Role::Moved(_)) => true,
        (Sought::Comparison, Role::Compared) => true,
        (Sought::Write, Role::Computed) | (Sought::Cut, Role::Compared) => {
            !is_same_greatest(before, after)
        }
        _ => false,
    }
}

/// The last instruction that brings the greatest number that is known at a point, and what it brings.
fn greatest_brought(listing: &Listing, point: Point) -> Option<Brought>
    ensures { IfSome result (BringsGreatest listing.now point) }
{
    let mut from = point.slot;
    while from > 0 {
        from -= 1;
        let brought = brought_from(listing, from, point);
        if brought.is_some() {
            return brought;
        }
    }
    None
}

/// The greatest number, where an instruction brings it.
fn brought_from(listing: &Listing, from: usize, point: Point) -> Option<Brought>
    requires { from < point.slot }
    ensures { IfSome result (BringsGreatest listing.now point) }
{
    match brought_by(listing, from, Way::On, point) {
        Some(brought) => Some(brought),
        None => brought_by(listing, from, Way::Jump, point),
    }
}

fn brought_by(listing: &Listing, from: usize, way: Way, point: Point) -> Option<Brought>
    requires { from < point.slot }
    ensures { IfSome result (BringsGreatest listing.now point) }
{
    let kind = listing.kind_brought(from, way, point.slot, point.register)?;
    if is_same_greatest(greatest(&kind), greatest_before(listing, point)) {
        Some(Brought { from, kind })
    } else {
        None
    }
}

/// True if control comes from that slot alone, and then by the way back alone.
fn steps_only(listing: &Listing, walk: Walk, from: usize) -> bool
    ensures { IsOnlyStep listing.now walk from result }
{
    walk.is_only && comes_only(listing, from, walk.point.slot)
}

/// True if control comes to a slot from that one alone.
fn comes_only(listing: &Listing, from: usize, slot: usize) -> bool
    ensures { result ≡ true → IsOnly listing.now from slot }
{
    for other in 0..slot {
        if comes_otherwise(listing, from, other, slot) {
            return false;
        }
    }
    true
}

/// True if control comes to a slot from that other one.
fn comes_otherwise(listing: &Listing, from: usize, other: usize, slot: usize) -> bool
    ensures { result ≡ false → IsOnlyOf listing.now from other slot }
{
    other != from && leads(listing, other, slot)
}

/// True if control comes from one slot to another, by any way.
fn leads(listing: &Listing, from: usize, slot: usize) -> bool
    ensures { result ≡ false → NeverLeads listing.now from slot }
{
    listing.arrives(from, Way::On, slot) || listing.arrives(from, Way::Jump, slot)
}

/// Goes back by one instruction.
fn step_back(listing: &Listing, walk: Walk, sought: Sought) -> Option<Step>
    ensures { IfSome result (IsStep listing.now sought walk) }
{
    match greatest_brought(listing, walk.point) {
        Some(brought) => step_over(listing, walk, sought, brought),
        None => None,
    }
}

/// Goes back by the instruction that brought the greatest number.
fn step_over(listing: &Listing, walk: Walk, sought: Sought, brought: Brought) -> Option<Step>
    requires { BringsGreatest listing.now walk.point brought }
    ensures { IfSome result (IsStep listing.now sought walk) }
{
    let Brought { from: slot, kind } = brought;
    let register = walk.point.register;
    let instruction = listing.insn(slot)?;
    let before = kind_before(listing, Point { slot, register })?;
    let passed = Found {
        slot,
        instruction,
        register,
        before,
        after: kind,
        is_only: steps_only(listing, walk, slot),
    };
    step_by(passed, sought)
}

/// The step back by an instruction.
fn step_by(passed: Found, sought: Sought) -> Option<Step>
    ensures { IfSome result (IsStepBy sought passed) }
{
    let role = role_of(passed.instruction, passed.register);
    let (before, after) = (greatest(&passed.before), greatest(&passed.after));
    if is_sought(sought, role, before, after) {
        Some(Step::Found(passed))
    } else {
        Some(Step::Earlier(Walk {
            point: Point {
                slot: passed.slot,
                register: source_by(role, passed.register)?,
            },
            is_only: passed.is_only,
        }))
    }
}

/// The last instruction before a point that is looked for.
fn last_of(listing: &Listing, start: Point, sought: Sought) -> Option<Found>
    ensures { IfSome result (IsFound listing.now start sought) }
{
    let mut walk = Walk {
        point: start,
        is_only: true,
    };
    for _ in 0..start.slot {
        match step_back(listing, walk, sought) {
            Some(Step::Found(found)) => return Some(found),
            Some(Step::Earlier(earlier)) => walk = earlier,
            None => return None,
        }
    }
    None
}

/// The number by which a pointer came out of its memory, if it was one that isn't in the text.
pub(crate) fn lost_range(listing: &Listing, slot: usize, access: BadAccess) -> Option<LostRange>
    ensures { IfSome result (IsLostAt listing.now slot) }
{
    match access {
        BadAccess::MovedOut { register, .. } => lost_by_move(listing, slot, register),
        BadAccess::Outside(reach) if is_past_end(reach) => lost_by_access(listing, slot),
        _ => None,
    }
}

/// True if the bytes may lie past the end of an element.
fn is_past_end(reach: Reach) -> bool {
    match reach.place.memory {
        Memory::Element { bytes, .. } => {
            let last = reach.place.to.saturating_add(i128::from(reach.count));
            last > i128::from(bytes)
        }
        Memory::Stack => false,
    }
}

/// The number that the instruction at a slot adds to a pointer.
fn lost_by_move(listing: &Listing, slot: usize, register: Register) -> Option<LostRange>
    ensures { IfSome result (IsLostAt listing.now slot) }
{
    let instruction = listing.insn(slot)?;
    traced(listing, Point { slot, register }, instruction, true)
}

/// The number that was added to a pointer before the access at a slot.
fn lost_by_access(listing: &Listing, slot: usize) -> Option<LostRange>
    ensures { IfSome result (IsLostAt listing.now slot) }
{
    let register = address_of(listing.insn(slot)?)?.base;
    match last_of(listing, Point { slot, register }, Sought::Move) {
        Some(moved) => traced_from(listing, moved),
        None => None,
    }
}

/// The number that a move of a pointer added.
fn traced_from(listing: &Listing, moved: Found) -> Option<LostRange>
    ensures { IfSome result (IsTraced listing.now
        (record { slot = moved.slot; register = moved.register }) moved.instruction moved.is_only) }
{
    let pointer = Point {
        slot: moved.slot,
        register: moved.register,
    };
    traced(listing, pointer, moved.instruction, moved.is_only)
}

/// The number that an instruction adds to a pointer, and where it comes from.
fn traced(listing: &Listing, pointer: Point, instruction: Insn, is_only: bool) -> Option<LostRange>
    ensures { IfSome result (IsTraced listing.now pointer instruction is_only) }
{
    match role_of(instruction, pointer.register) {
        Role::Moved(register) => {
            let number = Point {
                slot: pointer.slot,
                register,
            };
            Some(LostRange {
                pointer,
                is_only,
                number: register,
                known: kind_before(listing, number)?,
                moved: last_of(listing, pointer, Sought::Move),
                write: last_of(listing, number, Sought::Write),
                cut: last_of(listing, number, Sought::Cut),
                comparison: last_of(listing, number, Sought::Comparison),
            })
        }
        _ => None,
    }
}
