use crate::words::{push_element, push_stack};
use scx_asm_text::field_name;
use scx_isa::{Field, Pointer, Register, Size, TaskId, Value};
use scx_vm_tagged::Core;
use scxsim_output::Text;
use scxsim_trace::Names;

/// Where an instruction loads from or stores to.
#[derive(Clone, Copy)]
pub(crate) enum Place {
    Field(TaskId, Field),
    Element { map: u8, index: u32, at: u16 },
    Stack(u16),
}

impl Place {
    /// The place at that offset from the register's pointer.
    pub(crate) fn of(core: &Core, register: Register, offset: i16, size: Size) -> Option<Place> {
        match core.read(register) {
            Value::Pointer(Pointer::Task(task)) => {
                let field = Field::at(offset, size)?;
                Some(Place::Field(task, field))
            }
            Value::Pointer(
                Pointer::Element {
                    map,
                    index,
                    offset: at,
                },
            ) => {
                let at = at.checked_add_signed(offset)?;
                Some(Place::Element { map, index, at })
            }
            Value::Pointer(Pointer::Stack(at)) => {
                let at = at.checked_add_signed(offset)?;
                Some(Place::Stack(at))
            }
            Value::Pointer(Pointer::Map(_)) | Value::Number(_) | Value::Unset => None,
        }
    }

    /// Appends its words: `a.slice`, `element 3 of map 0`, `stack -8`.
    pub(crate) fn push<N: Names>(self, names: &N, text: &mut Text) {
        match self {
            Place::Field(task, field) => {
                text.push(names.task(task.0));
                text.push(".");
                text.push(field_name(field));
            }
            Place::Element { map, index, at } => push_element(map, index, at, text),
            Place::Stack(at) => push_stack(at, text),
        }
    }
}
