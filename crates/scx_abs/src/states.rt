ghost use Rattle.std.specs.Prelude.{◌≡◌, ◌<◌, ◌≤◌, ℕ, length, set, slice_index_or, []};
ghost use Rattle.scx_isa_semantics.specs.Registers.{number};
ghost use Rattle.scx_abs.specs.declared.kinds.Kind.TheVariants.{Unusable};
ghost use Rattle.scx_abs.specs.declared.kinds.Cell.TheVariants.{Bytes};
ghost use Rattle.scx_abs.specs.Kinds.{IsLeastCover, join_kind};
ghost use Rattle.scx_abs.specs.Cells.{join_cell};
ghost use Rattle.scx_abs.specs.Changes.{AreBlank};
ghost use Rattle.scx_abs.specs.States.{CoversState, IsProper, argument_kind, start_of};

use crate::kinds::{CELL_BYTES, Cell, Kind};
use scx_abs_ranges::Numbers;
use scx_isa::{Callback, REGISTERS, Register, STACK_SIZE};
use scx_isa_semantics::ArgumentKind;

/// The number of the stack's cells, of eight bytes each.
pub const CELLS: usize = 64;

/// The abstract state of registers and stack before an instruction.
#[derive(Clone, Copy)]
pub struct AbsState {
    /// The kinds of r0 to r10.
    pub registers: [Kind; REGISTERS],
    /// The cells of the stack, from the lowest on.
    pub cells: [Cell; CELLS],
}

impl AbsState {
    ghost use Rattle.scx_abs.specs.Changes.{IsBlankBelow};
    ghost use Rattle.scx_abs.specs.States.{kind_at, cell_at, with_kind, with_cell};

    /// The kind of a register.
    pub fn kind(&self, register: Register) -> Kind
        ensures { result ≡ kind_at self.now (number register) }
    {
        self.registers[register.number() as usize]
    }

    /// The register gets a kind.
    #[inline(always)]
    pub(crate) fn set(&mut self, register: Register, kind: Kind)
        ensures { self.new ≡ with_kind self.old (number register) kind }
    {
        self.registers[register.number() as usize] = kind;
    }

    /// The kind of the register of that number.
    pub(crate) fn kind_of(&self, register: usize) -> Kind
        requires { register < REGISTERS }
        ensures { result ≡ kind_at self.now register }
    {
        self.registers[register]
    }

    /// The cell of that number.
    pub(crate) fn cell(&self, cell: usize) -> Cell
        requires { cell < CELLS }
        ensures { result ≡ cell_at self.now cell }
    {
        self.cells[cell]
    }

    /// The cell of that number becomes another.
    #[inline(always)]
    pub(crate) fn set_cell(&mut self, number: usize, cell: Cell)
        requires { number < CELLS }
        ensures { self.new ≡ with_cell self.old number cell }
    {
        self.cells[number] = cell;
    }

    /// Becomes the other: below that cell nothing is known in both.
    pub(crate) fn copy_from(&mut self, other: &AbsState, low: usize)
        requires within { low ≤ CELLS }
        requires first { IsBlankBelow low self.old }
        requires second { IsBlankBelow low other.now }
        ensures { self.new ≡ other.now }
    {
        copy_registers(&mut self.registers, &other.registers);
        copy_cells(&mut self.cells, &other.cells, low);
    }

    /// Joins another state in: register by register, and cell by cell from that one on, below which
    /// nothing is known in both.
    pub(crate) fn join_from(&mut self, other: &AbsState, low: usize)
        requires first { IsBlankBelow low self.old }
        requires second { IsBlankBelow low other.now }
        ensures least { IsLeastCover CoversState self.new self.old other.now }
        ensures proper { IsProper self.old → IsProper other.now → IsProper self.new }
        ensures blank { IsBlankBelow low self.new }
    {
        join_registers(&mut self.registers, &other.registers);
        join_cells(&mut self.cells, &other.cells, low);
    }
}

/// The kind of a callback's argument; unusable where there is none.
fn argument_kind(argument: Option<ArgumentKind>) -> Kind
    ensures { result ≡ argument_kind argument }
{
    match argument {
        None => Kind::Unusable,
        Some(ArgumentKind::Task) => Kind::Task,
        Some(ArgumentKind::TaskOrNull) => Kind::TaskOrNull,
        Some(ArgumentKind::Number) => Kind::Num(Numbers::all()),
    }
}

/// The state in which a callback begins: its arguments in r1 to r3, the top of the stack in r10, and
/// nothing else.
pub fn start(callback: Callback) -> AbsState
    ensures { result ≡ start_of callback }
{
    let mut registers = [Kind::Unusable; REGISTERS];
    registers[1] = argument_kind(callback.argument(0));
    registers[2] = argument_kind(callback.argument(1));
    registers[3] = argument_kind(callback.argument(2));
    registers[10] = Kind::Stack(STACK_SIZE);
    AbsState {
        registers,
        cells: [Cell::Bytes([false; CELL_BYTES]); CELLS],
    }
}

/// The least state that covers both.
pub fn join(first: &AbsState, second: &AbsState) -> AbsState
    ensures least { IsLeastCover CoversState result first.now second.now }
    ensures proper { IsProper first.now → IsProper second.now → IsProper result }
{
    let mut joined = *first;
    joined.join_from(second, 0);
    joined
}

/// Joins the other's kind of a register in. Most registers have none, or the same in both.
#[inline(always)]
#[tactic(auto, using(crate::proofs::Joins::joined_kept))]
fn join_register(registers: &mut [Kind; REGISTERS], others: &[Kind; REGISTERS], register: usize)
    requires { register < REGISTERS }
    ensures { registers.new
        ≡ set registers.old register (join_kind (slice_index_or registers.old register Unusable)
        (slice_index_or others.now register Unusable)) }
{
    if !registers[register].keeps(&others[register]) {
        registers[register].join_in(&others[register]);
    }
}

/// Joins others in.
fn join_registers(registers: &mut [Kind; REGISTERS], others: &[Kind; REGISTERS])
    ensures long { length registers.new ≡ REGISTERS }
    ensures other_long { length others.now ≡ REGISTERS }
    ensures each { (r : ℕ) → r < REGISTERS
        → slice_index_or registers.new r Unusable
        ≡ join_kind (slice_index_or registers.old r Unusable)
        (slice_index_or others.now r Unusable) }
{
    for register in 0..REGISTERS {
        join_register(registers, others, register);
    }
}

/// The least cell that covers those of a number in both.
fn joined_cell(first: &[Cell; CELLS], second: &[Cell; CELLS], cell: usize) -> Cell
    requires { cell < CELLS }
    ensures { result
        ≡ join_cell (slice_index_or first.now cell (Bytes []))
        (slice_index_or second.now cell (Bytes [])) }
{
    first[cell].join(second[cell])
}

/// Copies others.
fn copy_registers(registers: &mut [Kind; REGISTERS], others: &[Kind; REGISTERS])
    ensures { registers.new ≡ others.now }
{
    registers.copy_from_slice(others);
}

/// Copies others, from that one on, below which nothing is known in both.
fn copy_cells(cells: &mut [Cell; CELLS], others: &[Cell; CELLS], low: usize)
    requires within { low ≤ CELLS }
    requires first { AreBlank low cells.old }
    requires second { AreBlank low others.now }
    ensures { cells.new ≡ others.now }
{
    let all = &mut cells[..];
    let others = &others[..];
    all[low..].copy_from_slice(&others[low..]);
}

/// Joins others in, from that one on, below which nothing is known in both.
fn join_cells(cells: &mut [Cell; CELLS], others: &[Cell; CELLS], low: usize)
    requires first { AreBlank low cells.old }
    requires second { AreBlank low others.now }
    ensures long { length cells.new ≡ CELLS }
    ensures other_long { length others.now ≡ CELLS }
    ensures each { (c : ℕ) → c < CELLS
        → slice_index_or cells.new c (Bytes [])
        ≡ join_cell (slice_index_or cells.old c (Bytes []))
        (slice_index_or others.now c (Bytes [])) }
{
    for cell in low..CELLS {
        cells[cell] = joined_cell(cells, others, cell);
    }
}
