ghost use Rattle.std.specs.Prelude.{◌^◌, Some};
ghost use Rattle.scx_isa_semantics.specs.declared.host_tables.Field.TheVariants.{Pid, Weight, Slice, DsqVtime, PrevCpu, Group, RunNs, Cpus};
ghost use Rattle.scx_vm.specs.declared.arguments.Answer.TheVariants.{Num};

use scx_isa::{Field, Helper, TaskId};
use scx_vm::{Answer, Arg, Env};

/// A host of one task, which answers 0 to each helper call and keeps the last one.
#[derive(Drop)]
pub struct OneTask {
    pub weight: u32,
    /// The rest of the task's slice, in nanoseconds.
    pub slice: u64,
    pub vtime: u64,
    /// The helper that was called last.
    pub called: Option<Helper>,
    /// The arguments of that call.
    pub given: [Arg; 5],
}

impl OneTask {
    /// A host whose task has the weight 50, 5 ms left of its slice, and the virtual time 1000.
    pub fn new() -> OneTask {
        OneTask {
            weight: 50,
            slice: 5_000_000,
            vtime: 1000,
            called: None,
            given: [Arg::Unset; 5],
        }
    }
}

impl Env for OneTask {
    ghost functions = { record {
      answer = λ w h a. Num 0;
      after_call = λ w h a. record w { called = Some h; given = a };
      number = λ w t f. elim f [ Pid ↦ 7 | Weight ↦ w.weight | Slice ↦ w.slice | DsqVtime ↦ w.vtime | PrevCpu ↦ 0 | Group ↦ 0 | RunNs ↦ 0 | Cpus ↦ 0 ];
      after_store = λ w t f n. elim f [ Pid ↦ w | Weight ↦ w | Slice ↦ record w { slice = n } | DsqVtime ↦ record w { vtime = n } | PrevCpu ↦ w | Group ↦ w | RunNs ↦ w | Cpus ↦ w ];
    } };

    ghost room = { λ w. 2 ^ 64 };

    ghost spent = { λ w. 0 };

    fn call(&mut self, helper: Helper, arguments: &[Arg; 5]) -> Answer {
        self.called = Some(helper);
        self.given = *arguments;
        Answer::Num(0)
    }

    fn load(&self, _task: TaskId, field: Field) -> u64 {
        let slice = self.slice;
        let vtime = self.vtime;
        match field {
            Field::Pid => 7,
            Field::Weight => u64::from(self.weight),
            Field::Slice => slice,
            Field::DsqVtime => vtime,
            Field::PrevCpu => 0,
            Field::Group => 0,
            Field::RunNs => 0,
            Field::Cpus => 0,
        }
    }

    fn store(&mut self, _task: TaskId, field: Field, value: u64) {
        match field {
            Field::Slice => self.slice = value,
            Field::DsqVtime => self.vtime = value,
            Field::Pid => {}
            Field::Weight => {}
            Field::PrevCpu => {}
            Field::Group => {}
            Field::RunNs => {}
            Field::Cpus => {}
        }
    }
}
