ghost use Rattle.std.specs.Prelude.{◌≡◌, ℕ, ◌+◌, ◌*◌, ◌^◌, ◌<◌, ◌≤◌, IsTrue};
ghost use Rattle.scx_isa_semantics.specs.declared.host_tables.Helper.TheVariants.{MapLookupElem};
ghost use Rattle.scx_isa_semantics.specs.HostTables.{field_width, is_writable};
ghost use Rattle.scx_vm.specs.Host.{Functions, AreTaken, AnswerFits};

use crate::arguments::{Answer, Arg};
use scx_isa_semantics::{Field, Helper, TaskId};

/// The host of the programs that it runs: their helpers, and the records of tasks.
///
/// Each answer and each change is a function of its state. Two budgets bound what a run may ask:
/// `room` is the number of calls that it still has room for, and `spent` grows by at most 1 a call.
pub trait Env {
    /// A helper's answer, the value of a task's field, and the host after a call or a store.
    ghost functions: { Functions Self };

    ghost room: { Self → ℕ };

    ghost spent: { Self → ℕ };

    /// Calls a helper, other than the look-up of a map's element, with r1 to r5. Those that it
    /// doesn't take are unset; the others are what it takes.
    fn call(&mut self, helper: Helper, arguments: &[Arg; 5]) -> Answer
        requires room { 0 < room self.old }
        requires is_asked { ¬ (helper ≡ MapLookupElem) }
        requires taken { AreTaken helper arguments.now }
        ensures answer { result ≡ functions.answer self.old helper arguments.now }
        ensures after { self.new ≡ functions.after_call self.old helper arguments.now }
        ensures fits { AnswerFits helper result }
        ensures room { room self.old ≤ room self.new + 1 }
        ensures spent { spent self.new ≤ spent self.old + 1 };

    /// The value of the field.
    fn load(&self, task: TaskId, field: Field) -> u64
        ensures number { result ≡ functions.number self.now task field }
        ensures fits { result < 2 ^ (8 * field_width field) };

    /// Writes a number to a field that may be written.
    fn store(&mut self, task: TaskId, field: Field, value: u64)
        requires { IsTrue (is_writable field) }
        ensures after { self.new ≡ functions.after_store self.old task field value }
        ensures room { room self.old ≤ room self.new }
        ensures spent { spent self.new ≤ spent self.old };
}
