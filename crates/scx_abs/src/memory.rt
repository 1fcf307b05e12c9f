ghost use Rattle.std.specs.Prelude.{◌≡◌, ◌+◌, ◌<◌, ◌≤◌, Ok, IfOk, IfErr};
ghost use Rattle.scx_isa_semantics.specs.Registers.{number};
ghost use Rattle.scx_isa_semantics.specs.Memory.{size_bytes, access_size};
ghost use Rattle.scx_abs_ranges.specs.declared.ranges.Range.{Range};
ghost use Rattle.scx_abs.specs.declared.kinds.Kind.TheVariants as Kind;
ghost use Rattle.scx_abs.specs.declared.kinds.Cell.TheVariants as Cell;
ghost use Rattle.scx_abs.specs.declared.states.AbsState.{AbsState};
ghost use Rattle.scx_abs.specs.Areas.{IsAlignedOnStack};
ghost use Rattle.scx_abs.specs.Cells.{with_bytes, written_in};
ghost use Rattle.scx_abs.specs.Changes.{AreKept, done_on, lowest_in};
ghost use Rattle.scx_abs.specs.Checks.{sets};
ghost use Rattle.scx_abs.specs.States.{cell_at, kind_at, with_cell};
ghost use Rattle.scx_abs.specs.Pieces.{kind_stored, operand_stored};
ghost use Rattle.scx_abs.specs.Rules.{area_of, field_area, loaded_kind, kind_in, load_kind, pointer_cell, stored_cell, number_stored, stored_in, store_rule};

use crate::arithmetic::usable;
use crate::faults::Why;
use crate::kinds::{CELL_BYTES, Cell, Held, Kind, all_written, marked};
use crate::offsets::{check_offsets, element_size, offset_for};
use crate::states::{AbsState, CELLS};
use scx_abs_ranges::Numbers;
use scx_isa::{Access, Field, Operand, Register, Rules, STACK_SIZE, Size, Width};
use scx_isa_semantics::{immediate, shifted};
use scx_maps::MapDefs;
use scx_vm::Context;

/// The memory that an address means.
#[derive(Clone, Copy)]
pub enum Area {
    /// The byte of the stack.
    OnStack(u16),
    /// An element of a map.
    InElement,
    /// The field of a task's record.
    InTask(Field),
}

impl AbsState {
    /// A load: the destination gets what is known of what it takes, where the checks pass, and the
    /// memory is answered. That r10 is written goes before what is wrong with the access.
    #[inline(always)]
    #[tactic(auto, using(crate::proofs::Registers::frame_refused))]
    pub(crate) fn load(
        &mut self,
        access: Access,
        destination: Register,
        base: Register,
        offset: i16,
        context: &Context,
    ) -> Result<Area, Why>
        ensures done { done_on self.new result
            ≡ sets self.old (number destination)
            (load_kind context.now self.old access base offset) }
        ensures area { IfOk result (λ area. area_of context.now.defs
            (kind_at self.old (number base)) offset
            (size_bytes (access_size access)) ≡ Ok area) }
        ensures cells { self.new.cells ≡ self.old.cells }
    {
        if destination == Register::R10 {
            return Err(Why::WritesFrame);
        }
        let base = usable(self.kind(base))?;
        let area = area_of(base, offset, access.size(), &context.defs)?;
        let kind = kind_in(self, access, area, context.rules)?;
        self.set(destination, kind);
        Ok(area)
    }

    /// A store, where the checks pass; the memory that it takes is answered. The registers are checked
    /// first, then the address, then what is stored.
    #[inline(always)]
    pub(crate) fn store(
        &mut self,
        size: Size,
        base: Register,
        offset: i16,
        operand: Operand,
        defs: &MapDefs,
    ) -> Result<Area, Why>
        ensures done { done_on self.new result
            ≡ store_rule defs.now self.old size base offset operand }
        ensures area { IfOk result (λ area. area_of defs.now (kind_at self.old (number base)) offset
            (size_bytes size) ≡ Ok area) }
        ensures kept { IfOk result (λ area. AreKept (lowest_in area) self.old self.new) }
        ensures same { IfErr result (λ why. self.new ≡ self.old) }
    {
        let base = usable(self.kind(base))?;
        self.store_operand(size, base, offset, operand, defs)
    }

    /// A store to an address of that kind.
    #[inline(always)]
    fn store_operand(
        &mut self,
        size: Size,
        base: Kind,
        offset: i16,
        operand: Operand,
        defs: &MapDefs,
    ) -> Result<Area, Why>
        ensures done { done_on self.new result
            ≡ operand_stored defs.now self.old size base offset operand }
        ensures area { IfOk result (λ area. area_of defs.now base offset (size_bytes size)
            ≡ Ok area) }
        ensures kept { IfOk result (λ area. AreKept (lowest_in area) self.old self.new) }
        ensures same { IfErr result (λ why. self.new ≡ self.old) }
    {
        match operand {
            Operand::Immediate(k) => {
                let kind = Kind::Num(Numbers::single(immediate(Width::Bits64, k)));
                self.store_kind(size, base, offset, kind, defs)
            }
            Operand::Register(register) => {
                let kind = usable(self.kind(register))?;
                self.store_kind(size, base, offset, kind, defs)
            }
        }
    }

    /// A store of a value of that kind.
    #[inline(always)]
    fn store_kind(
        &mut self,
        size: Size,
        base: Kind,
        offset: i16,
        kind: Kind,
        defs: &MapDefs,
    ) -> Result<Area, Why>
        ensures done { done_on self.new result
            ≡ kind_stored defs.now self.old size base offset kind }
        ensures area { IfOk result (λ area. area_of defs.now base offset (size_bytes size)
            ≡ Ok area) }
        ensures kept { IfOk result (λ area. AreKept (lowest_in area) self.old self.new) }
        ensures same { IfErr result (λ why. self.new ≡ self.old) }
    {
        let area = area_of(base, offset, size, defs)?;
        self.store_in(size, kind, area)?;
        Ok(area)
    }

    /// Stores a value of that kind in an area.
    #[inline(always)]
    fn store_in(&mut self, size: Size, kind: Kind, area: Area) -> Result<(), Why>
        requires { IsAlignedOnStack (size_bytes size) area }
        ensures done { done_on self.new result ≡ stored_in self.old size kind area }
        ensures kept { AreKept (lowest_in area) self.old self.new }
        ensures same { IfErr result (λ why. self.new ≡ self.old) }
    {
        match kind {
            Kind::Num(_) => self.store_number(size, area),
            _ => self.store_pointer(size, kind, area),
        }
    }

    /// A store of a number there.
    #[inline(always)]
    #[tactic(auto, using(crate::proofs::Bytes::fits_cell))]
    fn store_number(&mut self, size: Size, area: Area) -> Result<(), Why>
        requires { IsAlignedOnStack (size_bytes size) area }
        ensures done { (r : Range)
            → done_on self.new result ≡ stored_in self.old size (Kind.Num r) area }
        ensures kept { AreKept (lowest_in area) self.old self.new }
        ensures same { IfErr result (λ why. self.new ≡ self.old) }
    {
        match area {
            Area::OnStack(at) => {
                let at = usize::from(at);
                self.mark(at / CELL_BYTES, size, at % CELL_BYTES);
                Ok(())
            }
            Area::InElement => Ok(()),
            Area::InTask(field) if field.is_writable() => Ok(()),
            Area::InTask(_) => Err(Why::TaskField),
        }
    }

    /// A number is written from that byte of a cell on.
    #[inline(always)]
    #[tactic(auto, using(crate::proofs::Blanks::kept_below))]
    pub(crate) fn mark(&mut self, cell: usize, size: Size, byte: usize)
        requires cell { cell < CELLS }
        requires byte { byte + size_bytes size ≤ CELL_BYTES }
        ensures marked { self.new ≡ with_cell self.old cell
            (Cell.Bytes (with_bytes (written_in (cell_at self.old cell)) byte (size_bytes size))) }
        ensures kept { AreKept cell self.old self.new }
    {
        let written = self.cell(cell).written();
        match size {
            Size::DoubleWord => self.set_cell(cell, Cell::Bytes(marked(written, byte, CELL_BYTES))),
            _ => {
                let count = usize::from(size.bytes());
                self.set_cell(cell, Cell::Bytes(marked(written, byte, count)));
            }
        }
    }

    /// A store of what isn't a number there.
    #[inline(never)]
    #[tactic(auto, using(crate::proofs::Bytes::fits_cell, crate::proofs::Blanks::kept_below))]
    fn store_pointer(&mut self, size: Size, kind: Kind, area: Area) -> Result<(), Why>
        requires { IsAlignedOnStack (size_bytes size) area }
        ensures done { done_on self.new result ≡ stored_in self.old size kind area }
        ensures kept { AreKept (lowest_in area) self.old self.new }
        ensures same { IfErr result (λ why. self.new ≡ self.old) }
    {
        match area {
            Area::OnStack(at) => {
                let at = usize::from(at);
                match stored_cell(self.cell(at / CELL_BYTES), size, at % CELL_BYTES, kind) {
                    Ok(cell) => {
                        self.set_cell(at / CELL_BYTES, cell);
                        Ok(())
                    }
                    Err(why) => Err(why),
                }
            }
            Area::InElement => check_number(kind),
            Area::InTask(field) if field.is_writable() => check_number(kind),
            Area::InTask(_) => Err(Why::TaskField),
        }
    }
}

/// Checks what is stored where numbers alone are.
fn check_number(kind: Kind) -> Result<(), Why>
    ensures { (a : AbsState) → done_on a result ≡ number_stored a kind }
{
    match kind {
        Kind::Num(_) => Ok(()),
        _ => Err(Why::PointerStore),
    }
}

/// The memory that an address means, for an access of that size.
#[inline(always)]
pub fn area_of(base: Kind, offset: i16, size: Size, defs: &MapDefs) -> Result<Area, Why>
    ensures area { result ≡ area_of defs.now base offset (size_bytes size) }
    ensures aligned { IfOk result (IsAlignedOnStack (size_bytes size)) }
{
    let distance = i64::from(offset);
    match base {
        Kind::Stack(at) => {
            let at = offset_for(STACK_SIZE, size, shifted(at, distance))?;
            Ok(Area::OnStack(at))
        }
        Kind::Elem(map, offsets) => {
            check_offsets(element_size(defs, map), size, offsets, distance)?;
            Ok(Area::InElement)
        }
        Kind::Task => field_area(Field::at(offset, size)),
        Kind::Num(_) | Kind::MapRef(_) => Err(Why::OutOfBounds),
        Kind::ElemOrNull(_) | Kind::TaskOrNull => Err(Why::NullNotTested),
        Kind::Unusable => Err(Why::UnusableRegister),
    }
}

/// A field of a task, if an access takes one whole.
fn field_area(field: Option<Field>) -> Result<Area, Why>
    ensures area { result ≡ field_area field }
    ensures aligned { IfOk result (IsAlignedOnStack 0) }
{
    match field {
        Some(field) => Ok(Area::InTask(field)),
        None => Err(Why::TaskField),
    }
}

/// The kind that a load from there gives, by these rules.
#[inline(always)]
#[tactic(auto, using(crate::proofs::Bytes::fits_cell))]
fn kind_in(state: &AbsState, access: Access, area: Area, rules: Rules) -> Result<Kind, Why>
    requires { IsAlignedOnStack (size_bytes (access_size access)) area }
    ensures { result ≡ kind_in rules state.now access area }
{
    match area {
        Area::OnStack(at) => {
            let at = usize::from(at);
            loaded_kind(state.cell(at / CELL_BYTES), access, at % CELL_BYTES)
        }
        Area::InElement => Ok(Kind::Num(Numbers::loaded(access))),
        Area::InTask(field) if access.is_plain() && field.is_known(rules) => {
            Ok(Kind::Num(Numbers::loaded(access)))
        }
        Area::InTask(_) => Err(Why::TaskField),
    }
}

/// The kind that a load gives which begins at that byte of the cell.
fn loaded_kind(cell: Cell, access: Access, byte: usize) -> Result<Kind, Why>
    requires { byte + size_bytes (access_size access) ≤ CELL_BYTES }
    ensures { result ≡ loaded_kind cell access byte }
{
    match (cell, access) {
        (Cell::Bytes(set), _) => {
            if all_written(set, byte, usize::from(access.size().bytes())) {
                Ok(Kind::Num(Numbers::loaded(access)))
            } else {
                Err(Why::UnwrittenStack)
            }
        }
        (Cell::Pointer(pointer), Access::DoubleWord) => Ok(pointer.kind()),
        (Cell::Pointer(_), _) => Err(Why::UnwrittenStack),
    }
}

/// The cell after a store which begins at that byte of it.
#[inline(always)]
fn stored_cell(cell: Cell, size: Size, byte: usize, kind: Kind) -> Result<Cell, Why>
    requires { byte + size_bytes size ≤ CELL_BYTES }
    ensures { result ≡ stored_cell cell size byte kind }
{
    match (kind, size) {
        (Kind::Num(_), _) => Ok(Cell::Bytes(marked(
            cell.written(),
            byte,
            usize::from(size.bytes()),
        ))),
        (_, Size::DoubleWord) => pointer_cell(kind.held()),
        _ => Err(Why::PointerStore),
    }
}

/// The cell of a stored pointer.
fn pointer_cell(pointer: Option<Held>) -> Result<Cell, Why>
    ensures { result ≡ pointer_cell pointer }
{
    match pointer {
        Some(pointer) => Ok(Cell::Pointer(pointer)),
        None => Err(Why::PointerStore),
    }
}
