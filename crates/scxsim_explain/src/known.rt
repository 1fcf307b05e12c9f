use crate::words::{from_top, push_brief};
use scx_abs::{AbsState, CELL_BYTES, Cell, Kind};
use scx_isa::{REGISTERS, STACK_SIZE};
use scxsim_output::Text;

/// The number of listed registers: all but r10, which is always the frame.
const LISTED: usize = REGISTERS - 1;

/// The last byte of a cell, counted from its first.
const LAST_IN_CELL: u16 = CELL_BYTES as u16 - 1;

/// Items of a list, with commas between them.
#[derive(Drop)]
struct Items<'a> {
    line: &'a mut Text,
    has_items: bool,
    has_stack: bool,
    /// The first of the written bytes that aren't listed yet.
    written: Option<u16>,
}

impl Items<'_> {
    /// Begins an item.
    fn begin(&mut self) {
        let comma = if self.has_items { ", " } else { "" };
        self.has_items = true;
        self.line.push(comma);
    }

    /// Registers of one kind.
    fn registers(&mut self, first: usize, last: usize, kind: Kind) {
        self.begin();
        self.line.number("r", first as u64);
        if first != last {
            self.line.number("..r", last as u64);
        }
        self.line.push(" ");
        push_brief(self.line, &kind);
    }

    /// Begins an item of bytes of the stack.
    fn bytes(&mut self, first: u16, last: u16) {
        self.begin();
        let stack = if self.has_stack { "" } else { "stack " };
        self.has_stack = true;
        self.line.show(stack, &from_top(first));
        self.line.show("..", &from_top(last));
        self.line.push(" ");
    }

    /// A cell of the stack that begins at a byte: which of its bytes are written, or a pointer.
    fn cell(&mut self, at: u16, cell: Cell) {
        match cell {
            Cell::Bytes(set) => self.numbers(at, &set),
            Cell::Pointer(pointer) => {
                self.end_written(at);
                self.bytes(at, at.saturating_add(LAST_IN_CELL));
                push_brief(self.line, &pointer.kind());
            }
        }
    }

    /// Eight bytes, some of which are written.
    fn numbers(&mut self, at: u16, set: &[bool; CELL_BYTES]) {
        let mut byte = at;
        for is_written in set {
            if !*is_written {
                self.end_written(byte);
            } else if self.written.is_none() {
                self.written = Some(byte);
            }
            byte = byte.saturating_add(1);
        }
    }

    /// The written bytes that aren't listed yet, which end before this one.
    fn end_written(&mut self, end: u16) {
        if let Some(first) = self.written {
            self.written = None;
            self.bytes(first, end.saturating_sub(1));
            self.line.push("written");
        }
    }
}

/// Appends what is known: usable registers, and what is written of the stack.
pub(crate) fn push_known(line: &mut Text, state: &AbsState) {
    let mut items = Items {
        line,
        has_items: false,
        has_stack: false,
        written: None,
    };
    push_registers(&mut items, state);
    push_stack(&mut items, state);
    if !items.has_items {
        items.line.push("nothing");
    }
}

fn push_registers(items: &mut Items<'_>, state: &AbsState) {
    let mut first = 0;
    for number in 0..LISTED {
        let next = number.saturating_add(1);
        let kind = kind_of(state, number);
        if next == LISTED || kind_of(state, next) != kind {
            if kind != Kind::Unusable {
                items.registers(first, number, kind);
            }
            first = next;
        }
    }
}

/// The kind of the register of that number.
fn kind_of(state: &AbsState, number: usize) -> Kind {
    match state.registers.get(number) {
        Some(kind) => *kind,
        None => Kind::Unusable,
    }
}

fn push_stack(items: &mut Items<'_>, state: &AbsState) {
    let mut at = 0;
    for cell in &state.cells {
        items.cell(at, *cell);
        at = at.saturating_add(CELL_BYTES as u16);
    }
    items.end_written(STACK_SIZE);
}
