ghost use Rattle.std.specs.Prelude.{◌≡◌};
ghost use Rattle.scx_sched_world.specs.Helpers.{number_of, task_of, world_functions, room_of, spent_of};

use crate::world::World;
use scx_isa::{Field, Helper, TaskId};
use scx_vm::{Answer, Arg, Env};

impl Env for World {
    ghost functions = { world_functions };

    ghost room = { room_of };

    ghost spent = { spent_of };

    #[inline(always)]
    fn call(&mut self, helper: Helper, arguments: &[Arg; 5]) -> Answer {
        let first = given_number(arguments[0]);
        match helper {
            Helper::KtimeGetNs => Answer::Num(self.clock * 1_000_000),
            Helper::CreateDsq => Answer::Num(self.create(first)),
            Helper::DsqInsert => Answer::Num(self.insert_in_order(
                given_task(arguments[0]),
                given_number(arguments[1]),
                given_number(arguments[2]),
                given_number(arguments[3]),
            )),
            Helper::DsqInsertVtime => Answer::Num(self.insert_by_vtime(
                given_task(arguments[0]),
                given_number(arguments[1]),
                given_number(arguments[2]),
                given_number(arguments[3]),
                given_number(arguments[4]),
            )),
            Helper::DsqMoveToLocal => Answer::Num(self.move_to_local(first)),
            Helper::SelectCpuDfl => Answer::Num(self.choose(given_task(arguments[0]))),
            Helper::CpuIdle => Answer::Num(self.ask_idle(first)),
            Helper::TaskByPid => self.task_by_pid(first),
            Helper::DsqNrQueued => Answer::Num(self.queued(first)),
            Helper::KickCpu => Answer::Num(self.kick_by(first, given_number(arguments[1]))),
            Helper::SmpProcessorId => Answer::Num(u64::from(self.here())),
            Helper::Exit => {
                self.end_by(first);
                Answer::Num(0)
            }
            Helper::CpuCurr => self.ask_current(first),
            Helper::DsqPeek => self.peek(first),
            Helper::TaskRunning => {
                Answer::Num(u64::from(self.is_current_one(given_task(arguments[0]))))
            }
            Helper::TaskCpu => {
                Answer::Num(u64::from(self.cpu_of_task(given_task(arguments[0]))))
            }
            Helper::PickIdle => Answer::Num(self.pick_idle(first, given_number(arguments[1]))),
            Helper::ClaimIdle => Answer::Num(self.claim_idle(first)),
            Helper::TimerStart => {
                Answer::Num(self.start_timer(first, given_number(arguments[1])))
            }
            Helper::TimerCancel => Answer::Num(self.cancel_timer(first)),
            Helper::PrandomU32 => Answer::Num(u64::from(self.next_random())),
            Helper::MayRun => Answer::Num(self.ask_may_run(
                given_task(arguments[0]),
                given_number(arguments[1]),
            )),
            // A run does the work of helpers on maps itself.
            Helper::MapLookupElem | Helper::OnMap(_) => Answer::Num(0),
        }
    }

    fn load(&self, task: TaskId, field: Field) -> u64 {
        self.field(task.0, field)
    }

    fn store(&mut self, task: TaskId, field: Field, value: u64) {
        match field {
            Field::Slice => {
                let run_ns = self.task(task.0).run_ns;
                self.tasks.set_times(task.0, value, run_ns);
            }
            Field::DsqVtime => self.tasks.set_vtime(task.0, value),
            // Into these no program stores.
            Field::Pid
            | Field::Weight
            | Field::PrevCpu
            | Field::Group
            | Field::RunNs
            | Field::Cpus => {}
        }
    }
}

fn given_number(argument: Arg) -> u64
    ensures { result ≡ number_of argument }
{
    match argument {
        Arg::Num(n) => n,
        Arg::Unset | Arg::Task(_) => 0,
    }
}

fn given_task(argument: Arg) -> Option<u16>
    ensures { result ≡ task_of argument }
{
    match argument {
        Arg::Task(task) => Some(task.0),
        Arg::Unset | Arg::Num(_) => None,
    }
}
