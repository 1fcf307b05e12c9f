ghost use Rattle.std.specs.Prelude.{◌≡◌};
ghost use Rattle.scx_isa_semantics.specs.Machine.{start, with_register};
ghost use Rattle.scx_isa_semantics.specs.Effects.{set_register};
ghost use Rattle.scx_isa_semantics.specs.Calls.{after_call};
ghost use Rattle.scx_isa_semantics.specs.Elements.{Maps};
ghost use Rattle.scx_isa_semantics.specs.Registers.{number};
ghost use Rattle.scx_vm.specs.Arguments.{program_arguments};
ghost use Rattle.scx_vm_tagged.specs.Execute.{effect_of};
ghost use Rattle.scx_vm_tagged.specs.Watched.{held};

use crate::arguments::argument_value;
use crate::effect::Effect;
use crate::stack::Stack;
use scx_isa::{Pointer, REGISTERS, Register, STACK_SIZE, Value};
use scx_vm::Args;

/// The state of a running program but for the maps: what its registers and its stack hold.
#[derive(Drop)]
pub struct Core {
    registers: [Value; REGISTERS],
    pub stack: Stack,
}

impl Core {
    ghost use Rattle.scx_vm_tagged.specs.State.{register_value, seen};

    /// The state as a program with these arguments starts: r10 points to the top of the stack.
    pub fn start(arguments: Args) -> Core
        ensures { (maps : Maps) → seen result maps ≡ start (program_arguments arguments) maps }
    {
        let mut registers = [Value::Unset; REGISTERS];
        registers[1] = argument_value(arguments.first);
        registers[2] = argument_value(arguments.second);
        registers[3] = argument_value(arguments.third);
        registers[10] = Value::Pointer(Pointer::Stack(STACK_SIZE));
        Core {
            registers,
            stack: Stack::new(),
        }
    }

    /// The value of the register.
    pub fn read(&self, register: Register) -> Value
        ensures { result ≡ register_value self.now (number register) }
    {
        self.registers[register.number() as usize]
    }

    /// The values of r1 to r5.
    pub fn arguments(&self) -> [Value; 5]
        ensures { (maps : Maps) → result ≡ held (seen self.now maps) }
    {
        [
            self.read(Register::R1),
            self.read(Register::R2),
            self.read(Register::R3),
            self.read(Register::R4),
            self.read(Register::R5),
        ]
    }

    /// Puts a value into the register, be it r10.
    pub fn write(&mut self, register: Register, value: Value)
        ensures { (maps : Maps)
            → seen self.new maps ≡ with_register (seen self.old maps) (number register) value }
    {
        self.registers[register.number() as usize] = value;
    }

    /// Writes what there is to write, but never r10.
    pub fn set_register(&mut self, register: Register, value: Option<Value>) -> Effect
        ensures { (maps : Maps)
            → set_register (seen self.old maps) (number register) value
            ≡ effect_of result (seen self.new maps) }
    {
        let Some(value) = value else {
            return Effect::Stuck;
        };
        if register == Register::R10 {
            return Effect::Stuck;
        }
        self.write(register, value);
        Effect::Next
    }

    /// Ends a helper call: r1 to r5 hold nothing any more, and r0 the answer.
    pub fn end_call(&mut self, answer: Value)
        ensures { (maps : Maps) → seen self.new maps ≡ after_call (seen self.old maps) answer }
    {
        self.write(Register::R1, Value::Unset);
        self.write(Register::R2, Value::Unset);
        self.write(Register::R3, Value::Unset);
        self.write(Register::R4, Value::Unset);
        self.write(Register::R5, Value::Unset);
        self.write(Register::R0, answer);
    }
}
