ghost use Rattle.std.specs.Prelude.{◌≡◌, ◌&&◌, false, List, Ok, Some, None, IfSome};
ghost use Rattle.scx_isa_semantics.specs.Registers.{number};
ghost use Rattle.scx_abs.specs.Changes.{done_on};
ghost use Rattle.scx_abs.specs.Checks.{gets, sets, usable, operand_kind};
ghost use Rattle.scx_abs.specs.declared.kinds.Kind.TheVariants as Kind;
ghost use Rattle.scx_maps.specs.declared.shape.Shape.{Shape};
ghost use Rattle.scx_abs_ranges.specs.Ranges.{single};
ghost use Rattle.scx_isa_semantics.specs.declared.operations.Operation.{Operation};
ghost use Rattle.scx_abs_ranges.specs.declared.ranges.Range.{Range};
ghost use Rattle.scx_abs_ranges.specs.Results.{computed_at, negated_range, extended_range, swapped_range};
ghost use Rattle.scx_abs.specs.Pieces.{advanced_kind, copied_kind, combined_numbers, combined_with};
ghost use Rattle.scx_abs.specs.Rules.{in_element, moved_by, moved_kind, computed_kind, advanced_by, element_kind, arithmetic_kind, combined_kind, binary_kind, numbers_of, number_kind, map_kind};
ghost use Rattle.scx_abs.specs.Singles.{is_single_number, is_single_operand, reads_singles};
ghost use Rattle.scx_abs.specs.States.{kind_at};

use crate::faults::Why;
use crate::kinds::Kind;
use crate::offsets::{element_size, offset_within};
use crate::states::AbsState;
use scx_abs_ranges::{Numbers, Offsets};
use scx_isa::{ByteOrder, Extension, Operand, Operation, Register, STACK_SIZE, SwapWidth, Width};
use scx_isa_semantics::{compute, immediate, low, pointer_step, shifted};
use scx_maps::MapDefs;

/// The kind of a register that is read.
#[inline(always)]
pub(crate) fn usable(kind: Kind) -> Result<Kind, Why>
    ensures { result ≡ usable kind }
{
    match kind {
        Kind::Unusable => Err(Why::UnusableRegister),
        _ => Ok(kind),
    }
}

/// The kind of an operand of that width.
#[inline(always)]
pub(crate) fn operand_kind(state: &AbsState, width: Width, operand: Operand) -> Result<Kind, Why>
    ensures { result ≡ operand_kind state.now width operand }
{
    match operand {
        Operand::Immediate(k) => Ok(Kind::Num(Numbers::single(immediate(width, k)))),
        Operand::Register(register) => usable(state.kind(register)),
    }
}

/// The numbers of a kind; refused where it isn't a number's.
fn numbers_of(kind: Kind) -> Result<Numbers, Why>
    ensures { result ≡ numbers_of kind }
{
    match kind {
        Kind::Num(numbers) => Ok(numbers),
        Kind::Unusable => Err(Why::UnusableRegister),
        _ => Err(Why::PointerArithmetic),
    }
}

/// The kind that negation leaves.
#[inline(always)]
pub fn negated_kind(kind: Kind, width: Width) -> Result<Kind, Why>
    ensures { result ≡ number_kind (negated_range width) kind }
{
    Ok(Kind::Num(numbers_of(kind)?.negated(width)))
}

/// The kind that a move leaves which extends a sign.
#[inline(always)]
pub fn extended_kind(kind: Kind, extension: Extension) -> Result<Kind, Why>
    ensures { result ≡ number_kind (extended_range extension) kind }
{
    Ok(Kind::Num(numbers_of(kind)?.extended(extension)))
}

/// The kind that a byte swap leaves.
#[inline(always)]
pub fn swapped_kind(kind: Kind, order: ByteOrder, width: SwapWidth) -> Result<Kind, Why>
    ensures { result ≡ number_kind (swapped_range order width) kind }
{
    Ok(Kind::Num(numbers_of(kind)?.byte_swapped(order, width)))
}

impl AbsState {
    /// Arithmetic: the destination gets its kind, where the checks pass. That r10 is written goes
    /// before what is wrong with what is read.
    #[inline(always)]
    #[tactic(auto, using(crate::proofs::Registers::frame_refused, crate::proofs::Registers::gets_kind))]
    pub(crate) fn compute(
        &mut self,
        width: Width,
        operation: Operation,
        destination: Register,
        operand: Operand,
        defs: &MapDefs,
    ) -> Result<(), Why>
        ensures done { done_on self.new result
            ≡ sets self.old (number destination)
            (binary_kind defs.now self.old width operation destination operand) }
        ensures cells { self.new.cells ≡ self.old.cells }
    {
        if destination == Register::R10 {
            return Err(Why::WritesFrame);
        }
        self.compute_other(width, operation, destination, operand, defs)
    }

    /// Computes with a destination other than r10.
    #[inline(always)]
    fn compute_other(
        &mut self,
        width: Width,
        operation: Operation,
        destination: Register,
        operand: Operand,
        defs: &MapDefs,
    ) -> Result<(), Why>
        ensures done { done_on self.new result
            ≡ gets self.old (number destination)
            (binary_kind defs.now self.old width operation destination operand) }
        ensures cells { self.new.cells ≡ self.old.cells }
    {
        match single_computed(self, width, operation, destination, operand) {
            // Most numbers are single.
            Some(n) => {
                self.set(destination, Kind::Num(Numbers::single(n)));
                Ok(())
            }
            None => self.compute_any(width, operation, destination, operand, defs),
        }
    }

    /// Computes with operands of any kinds.
    #[inline(always)]
    fn compute_any(
        &mut self,
        width: Width,
        operation: Operation,
        destination: Register,
        operand: Operand,
        defs: &MapDefs,
    ) -> Result<(), Why>
        ensures done { done_on self.new result
            ≡ gets self.old (number destination)
            (binary_kind defs.now self.old width operation destination operand) }
        ensures cells { self.new.cells ≡ self.old.cells }
    {
        match operation {
            Operation::Move => self.copy(width, destination, operand),
            _ => self.combine(width, operation, destination, operand, defs),
        }
    }

    /// Copies a number, and at 64 bits a pointer too.
    #[inline(always)]
    fn copy(&mut self, width: Width, destination: Register, operand: Operand) -> Result<(), Why>
        ensures done { done_on self.new result
            ≡ gets self.old (number destination)
            (copied_kind self.old width operand) }
        ensures cells { self.new.cells ≡ self.old.cells }
    {
        let kind = operand_kind(self, width, operand)?;
        match (width, kind) {
            (Width::Bits64, _) => {
                self.set(destination, kind);
                Ok(())
            }
            (Width::Bits32, Kind::Num(numbers)) => {
                self.set(destination, Kind::Num(numbers.copied(width)));
                Ok(())
            }
            (Width::Bits32, _) => Err(Why::PointerArithmetic),
        }
    }

    /// An operation that reads its destination.
    #[inline(always)]
    fn combine(
        &mut self,
        width: Width,
        operation: Operation,
        destination: Register,
        operand: Operand,
        defs: &MapDefs,
    ) -> Result<(), Why>
        ensures done { done_on self.new result
            ≡ gets self.old (number destination)
            (combined_kind defs.now self.old width operation destination operand) }
        ensures cells { self.new.cells ≡ self.old.cells }
    {
        match self.kind(destination) {
            Kind::Num(numbers) => {
                self.combine_numbers(width, operation, destination, numbers, operand)
            }
            Kind::Elem(map, offsets) => match (width, operation, operand) {
                (Width::Bits64, Operation::Add, Operand::Register(register)) => {
                    self.advance(destination, map, offsets, register, defs)
                }
                _ => self.combine_any(width, operation, destination, operand, defs),
            },
            _ => self.combine_any(width, operation, destination, operand, defs),
        }
    }

    /// Combines a destination that has one of these numbers with an operand.
    #[inline(always)]
    fn combine_numbers(
        &mut self,
        width: Width,
        operation: Operation,
        destination: Register,
        numbers: Numbers,
        operand: Operand,
    ) -> Result<(), Why>
        ensures done { done_on self.new result
            ≡ gets self.old (number destination)
            (combined_with self.old width operation numbers operand) }
        ensures cells { self.new.cells ≡ self.old.cells }
    {
        match operand_numbers(self, width, operand) {
            Ok(others) => {
                let left = numbers.computed(width, operation, others);
                self.set(destination, Kind::Num(left));
                Ok(())
            }
            Err(why) => Err(why),
        }
    }

    /// A pointer into an element goes as far on as a register says.
    #[inline(never)]
    fn advance(
        &mut self,
        destination: Register,
        map: u8,
        offsets: Offsets,
        register: Register,
        defs: &MapDefs,
    ) -> Result<(), Why>
        ensures done { done_on self.new result
            ≡ gets self.old (number destination)
            (advanced_kind defs.now self.old map offsets register) }
        ensures cells { self.new.cells ≡ self.old.cells }
    {
        match self.kind(register) {
            Kind::Num(numbers) => {
                let offsets = offsets.advanced(element_size(defs, map), numbers);
                let kind = in_element(map, offsets)?;
                self.set(destination, kind);
                Ok(())
            }
            Kind::Unusable => Err(Why::UnusableRegister),
            _ => Err(Why::PointerArithmetic),
        }
    }

    /// Combines a destination and an operand of any kinds.
    #[inline(never)]
    fn combine_any(
        &mut self,
        width: Width,
        operation: Operation,
        destination: Register,
        operand: Operand,
        defs: &MapDefs,
    ) -> Result<(), Why>
        ensures done { done_on self.new result
            ≡ gets self.old (number destination)
            (combined_kind defs.now self.old width operation destination operand) }
        ensures cells { self.new.cells ≡ self.old.cells }
    {
        let kind = combined_kind(self, width, operation, destination, operand, defs)?;
        self.set(destination, kind);
        Ok(())
    }
}

/// The numbers of an operand that has to be a number.
#[inline(always)]
#[tactic(auto, using(crate::proofs::SingleNumbers::numbers_usable))]
fn operand_numbers(state: &AbsState, width: Width, operand: Operand) -> Result<Numbers, Why>
    ensures { (o : Operation) → (r : Range) → combined_numbers width o r result
        ≡ combined_with state.now width o r operand }
{
    match operand {
        Operand::Immediate(k) => Ok(Numbers::single(immediate(width, k))),
        Operand::Register(register) => numbers_of(state.kind(register)),
    }
}

/// The single number that an operation leaves in its destination, if it is made of single numbers.
#[inline(always)]
#[tactic(auto, using(crate::proofs::SingleNumbers::single_moved))]
fn single_computed(
    state: &AbsState,
    width: Width,
    operation: Operation,
    destination: Register,
    operand: Operand,
) -> Option<u64>
    ensures one { IfSome result (λ n. (shapes : List Shape)
        → binary_kind shapes state.now width operation destination operand
        ≡ Ok (Kind.Num (single n))) }
    ensures several { result ≡ None
        → reads_singles state.now operation destination operand ≡ false }
{
    match operation {
        Operation::Move => match single_operand(state, width, operand) {
            Some(n) => Some(low(width, n)),
            None => None,
        },
        _ => single_combined(state, width, operation, destination, operand),
    }
}

/// The single number that is made by an operation which reads its destination.
#[inline(always)]
fn single_combined(
    state: &AbsState,
    width: Width,
    operation: Operation,
    destination: Register,
    operand: Operand,
) -> Option<u64>
    ensures one { IfSome result (λ n. (shapes : List Shape)
        → combined_kind shapes state.now width operation destination operand
        ≡ Ok (Kind.Num (single n))) }
    ensures several { result ≡ None → (is_single_number (kind_at state.now (number destination))
        && is_single_operand state.now operand) ≡ false }
{
    let Some(a) = state.kind(destination).single() else {
        return None;
    };
    match single_operand(state, width, operand) {
        Some(b) => Some(compute(width, operation, a, b)),
        None => None,
    }
}

/// The operand of that width, if it is a single number.
#[inline(always)]
fn single_operand(state: &AbsState, width: Width, operand: Operand) -> Option<u64>
    ensures one { IfSome result (λ n. operand_kind state.now width operand
        ≡ Ok (Kind.Num (single n))) }
    ensures several { result ≡ None → is_single_operand state.now operand ≡ false }
{
    match operand {
        Operand::Immediate(k) => Some(immediate(width, k)),
        Operand::Register(register) => state.kind(register).single(),
    }
}

/// The kind that an operation leaves that reads its destination.
fn combined_kind(
    state: &AbsState,
    width: Width,
    operation: Operation,
    destination: Register,
    operand: Operand,
    defs: &MapDefs,
) -> Result<Kind, Why>
    ensures { result ≡ combined_kind defs.now state.now width operation destination operand }
{
    let kind = usable(state.kind(destination))?;
    let other = operand_kind(state, width, operand)?;
    arithmetic_kind(width, operation, operand, kind, other, defs)
}

/// The kind that an operation makes of these two.
fn arithmetic_kind(
    width: Width,
    operation: Operation,
    operand: Operand,
    kind: Kind,
    other: Kind,
    defs: &MapDefs,
) -> Result<Kind, Why>
    ensures { result ≡ arithmetic_kind defs.now width operation operand kind other }
{
    match kind {
        Kind::Num(numbers) => computed_kind(width, operation, numbers, other),
        Kind::Elem(map, offsets) => {
            element_kind(width, operation, operand, map, offsets, other, defs)
        }
        _ => moved_by(kind, pointer_step(width, operation, operand), defs),
    }
}

/// The kind that an operation makes of a number and such an operand.
fn computed_kind(
    width: Width,
    operation: Operation,
    numbers: Numbers,
    operand: Kind,
) -> Result<Kind, Why>
    ensures { result ≡ computed_kind width operation numbers operand }
{
    match operand {
        Kind::Num(others) => Ok(Kind::Num(numbers.computed(width, operation, others))),
        _ => Err(Why::PointerArithmetic),
    }
}

/// The kind that an operation makes of a pointer into an element and such an operand.
fn element_kind(
    width: Width,
    operation: Operation,
    operand: Operand,
    map: u8,
    offsets: Offsets,
    other: Kind,
    defs: &MapDefs,
) -> Result<Kind, Why>
    ensures { result ≡ element_kind defs.now width operation operand map offsets other }
{
    match (width, operation, operand) {
        (Width::Bits64, Operation::Add, Operand::Register(_)) => {
            advanced_by(map, offsets, other, defs)
        }
        _ => {
            let distance = pointer_step(width, operation, operand);
            moved_in_element(map, offsets, distance, defs)
        }
    }
}

/// The kind of a pointer into an element, a number of the operand's further on.
fn advanced_by(map: u8, offsets: Offsets, operand: Kind, defs: &MapDefs) -> Result<Kind, Why>
    ensures { result ≡ advanced_by defs.now map offsets operand }
{
    match operand {
        Kind::Num(numbers) => {
            in_element(map, offsets.advanced(element_size(defs, map), numbers))
        }
        _ => Err(Why::PointerArithmetic),
    }
}

/// The kind of a pointer to one of these offsets, where all of them stayed in the element.
#[inline(always)]
fn in_element(map: u8, offsets: Option<Offsets>) -> Result<Kind, Why>
    ensures { result ≡ in_element map offsets }
{
    match offsets {
        Some(offsets) => Ok(Kind::Elem(map, offsets)),
        None => Err(Why::OutOfBounds),
    }
}

/// The kind of a pointer that is moved by that much.
fn moved_by(kind: Kind, distance: Option<i64>, defs: &MapDefs) -> Result<Kind, Why>
    ensures { result ≡ moved_by defs.now kind distance }
{
    match kind {
        Kind::Stack(at) => match distance {
            Some(distance) => {
                let to = offset_within(STACK_SIZE, shifted(at, distance))?;
                Ok(Kind::Stack(to))
            }
            None => Err(Why::PointerArithmetic),
        },
        Kind::Elem(map, offsets) => moved_in_element(map, offsets, distance, defs),
        _ => Err(Why::PointerArithmetic),
    }
}

/// The kind of a pointer into a map value that is moved by that much.
fn moved_in_element(
    map: u8,
    offsets: Offsets,
    distance: Option<i64>,
    defs: &MapDefs,
) -> Result<Kind, Why>
    ensures { result ≡ moved_by defs.now (Kind.Elem map offsets) distance }
{
    match distance {
        Some(distance) => in_element(map, offsets.moved(element_size(defs, map), distance)),
        None => Err(Why::PointerArithmetic),
    }
}

/// The kind of a reference to the map of that number.
pub fn map_kind(map: i32, defs: &MapDefs) -> Result<Kind, Why>
    ensures { result ≡ map_kind defs.now map }
{
    match usize::try_from(map) {
        Ok(map) if map < defs.count() => Ok(Kind::MapRef(map as u8)),
        _ => Err(Why::UnknownMap),
    }
}
