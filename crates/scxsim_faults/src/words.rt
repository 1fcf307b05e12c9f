use crate::place::{FaultPlace, HelperCall};
use scx_asm_text::helper_name;
use scx_isa::{Callback, Helper, Parameter};
use scx_isa_semantics::MAX_ARGUMENTS;
use scx_sched::Fault;
use scx_sched_world::{Cause, GLOBAL, LOCAL, LOCAL_ON, POLICY_END};
use scxsim_output::Text;
use scxsim_trace::Names;
use scxsim_views::write_allowed;

/// The meaning of a helper's argument.
#[derive(Clone, Copy)]
enum Meaning {
    Task,
    Queue,
    /// A time in nanoseconds.
    Time,
    /// The code of an exit, which has a sign.
    Code,
    Number,
}

/// The meaning of a helper's argument at that index, from 0. None past the last one, and where a map is given.
fn meaning_at(helper: Helper, index: usize) -> Option<Meaning> {
    match helper.parameter(index)? {
        Parameter::Task => Some(Meaning::Task),
        Parameter::Number => Some(meaning_of_number(helper, index)),
        Parameter::Map
        | Parameter::PerCpuMap
        | Parameter::LineMap
        | Parameter::Key
        | Parameter::Value
        | Parameter::Room => None,
    }
}

/// The meaning of a number that a helper takes.
fn meaning_of_number(helper: Helper, index: usize) -> Meaning {
    match (helper, index) {
        (Helper::CreateDsq | Helper::DsqMoveToLocal | Helper::DsqNrQueued | Helper::DsqPeek, 0) =>
            Meaning::Queue,
        (Helper::DsqInsert | Helper::DsqInsertVtime, 1) => Meaning::Queue,
        (Helper::DsqInsert | Helper::DsqInsertVtime, 2) => Meaning::Time,
        (Helper::TimerStart, 1) => Meaning::Time,
        (Helper::Exit, 0) => Meaning::Code,
        _ => Meaning::Number,
    }
}

/// Writes a queue as a policy names it.
fn write_queue(queue: u64, said: &mut Text) {
    if queue == GLOBAL {
        said.push("global");
    } else if queue == LOCAL {
        said.push("local");
    } else if is_local(queue) {
        said.number("local ", queue % 0x1_0000_0000);
    } else {
        said.number("queue ", queue);
    }
}

/// True if the number may be read as the local queue of a CPU.
pub fn is_local(queue: u64) -> bool {
    LOCAL_ON <= queue && queue - LOCAL_ON <= u64::from(u32::MAX)
}

/// Writes a time, in milliseconds if it is a whole number of them; the greatest has no end.
fn write_time(ns: u64, said: &mut Text) {
    if ns == u64::MAX {
        said.push("no end");
    } else if ns != 0 && ns % 1_000_000 == 0 {
        said.number("", ns / 1_000_000);
        said.push(" ms");
    } else {
        said.number("", ns);
        said.push(" ns");
    }
}

/// Writes `enqueue, slot 3: call 1002 dsq_insert`, or `select_cpu, slot 1: exit`.
pub fn write_place(place: &FaultPlace, said: &mut Text) {
    said.push(place.callback.name());
    said.number(", slot ", place.slot as u64);
    match place.call {
        Some(call) => {
            said.show(": call ", &call.number);
            said.push(" ");
            said.push(helper_name(call.helper));
        }
        None => said.push(": exit"),
    }
}

/// Writes the call with its arguments, `dsq_insert(a, queue 9, 2 ms, 0)`, or the answer.
pub fn write_call<N: Names>(place: &FaultPlace, names: &N, said: &mut Text) {
    match place.call {
        Some(call) => write_helper_call(&call, names, said),
        None => said.number("answer ", place.answer),
    }
}

/// Writes a helper's call with its arguments: `dsq_insert(a, queue 9, 2 ms, 0)`.
pub fn write_helper_call<N: Names>(call: &HelperCall, names: &N, said: &mut Text) {
    said.push(helper_name(call.helper));
    said.push("(");
    write_arguments(call, names, said);
    said.push(")");
}

fn write_arguments<N: Names>(call: &HelperCall, names: &N, said: &mut Text) {
    let mut before = "";
    for index in 0..MAX_ARGUMENTS {
        if let Some(meaning) = meaning_at(call.helper, index) {
            said.push(before);
            write_argument(meaning, call, index, names, said);
            before = ", ";
        }
    }
}

fn write_argument<N: Names>(
    meaning: Meaning,
    call: &HelperCall,
    index: usize,
    names: &N,
    said: &mut Text,
) {
    let number = call.number_at(index);
    match meaning {
        Meaning::Task => write_task(call.task_at(index), names, said),
        Meaning::Queue => write_queue(number, said),
        Meaning::Time => write_time(number, said),
        Meaning::Code => said.show("", &number.cast_signed()),
        Meaning::Number => said.number("", number),
    }
}

fn write_task<N: Names>(task: Option<u16>, names: &N, said: &mut Text) {
    match task {
        Some(task) => said.push(names.task(task)),
        None => said.push("no task"),
    }
}

/// Writes the reason of the fault, `no queue 9`, or the number of the text that goes with an exit, `message 2`.
pub fn write_reason<N: Names>(place: &FaultPlace, names: &N, said: &mut Text) {
    let cause = place.cause;
    match (place.call, cause) {
        (Some(call), Cause::Fault(fault)) => write_reason_of(place, &call, fault, names, said),
        (Some(call), Cause::Exit(_)) => said.number("message ", call.number_at(1)),
        (None, _) => write_no_cpu(place.answer, place.cpus, said),
    }
}

/// Writes the reason of a call's fault.
fn write_reason_of<N: Names>(
    place: &FaultPlace,
    call: &HelperCall,
    fault: Fault,
    names: &N,
    said: &mut Text,
) {
    let queue = queue_of(call);
    match fault {
        Fault::Stuck => said.push("it can't go on"),
        Fault::NoSuchQueue => write_no_queue(queue, said),
        Fault::CannotInsert => write_no_insert(place, call, names, said),
        Fault::Mixed => write_mixed(call, queue, said),
        Fault::BuiltinVtime => {
            said.push("by virtual time into ");
            write_queue(queue, said);
        }
        Fault::NoSuchCpu => write_no_cpu(cpu_of(call), place.cpus, said),
        Fault::UnknownFlag => write_unknown(call, said),
        Fault::CannotCreate => write_no_room(place, queue, said),
        Fault::IdleUntracked => {
            said.push("the policy tracks idle CPUs itself: update_idle without keep_idle");
        }
        Fault::NotAllowed => {
            write_task(call.task_at(0), names, said);
            said.push(" may run on ");
            write_allowed(place.allowed, said);
        }
    }
}

/// Writes that a call doesn't know its flags, or its timer.
fn write_unknown(call: &HelperCall, said: &mut Text) {
    match call.helper {
        Helper::TimerStart | Helper::TimerCancel => said.number("no timer ", call.number_at(0)),
        Helper::KickCpu => said.push("flags other than 0, 1 and 2"),
        _ => said.push("flags other than 0 and 1"),
    }
}

/// The queue that a call names.
fn queue_of(call: &HelperCall) -> u64 {
    match call.helper {
        Helper::DsqInsert | Helper::DsqInsertVtime => call.number_at(1),
        _ => call.number_at(0),
    }
}

/// The CPU that a call names, directly or by its local queue.
fn cpu_of(call: &HelperCall) -> u64 {
    match call.helper {
        Helper::DsqInsert | Helper::DsqInsertVtime => call.number_at(1).wrapping_sub(LOCAL_ON),
        _ => call.number_at(0),
    }
}

/// The order of a queue into which this call may insert no task.
fn other_order(call: &HelperCall) -> &'static str {
    match call.helper {
        Helper::DsqInsert => "by virtual time",
        _ => "in order of arrival",
    }
}

fn write_mixed(call: &HelperCall, queue: u64, said: &mut Text) {
    said.push("tasks wait in ");
    write_queue(queue, said);
    said.push(" ");
    said.push(other_order(call));
}

fn write_no_queue(queue: u64, said: &mut Text) {
    if queue < POLICY_END {
        said.number("no queue ", queue);
    } else {
        write_queue(queue, said);
        said.push(" is no queue of the policy");
    }
}

fn write_no_cpu(cpu: u64, cpus: u32, said: &mut Text) {
    said.number("no CPU ", cpu);
    if cpus == 1 {
        said.push("; there is 1");
    } else {
        said.number("; there are ", u64::from(cpus));
    }
}

fn write_no_insert<N: Names>(place: &FaultPlace, call: &HelperCall, names: &N, said: &mut Text) {
    let task = call.task_at(0);
    if place.callback == Callback::Dispatch {
        write_task(task, names, said);
        said.push(" isn't held");
    } else if task == place.task() {
        said.push("a second insert in one call");
    } else {
        write_task(task, names, said);
        said.push(" isn't the task at hand");
    }
}

fn write_no_room(place: &FaultPlace, queue: u64, said: &mut Text) {
    if queue >= POLICY_END {
        said.push("a queue's number is below 2^63");
    } else if place.queues.has(queue) {
        said.number("queue ", queue);
        said.push(" is there");
    } else {
        said.push("16 queues are there");
    }
}

/// Writes the queues that the policy has, if one is missing: `; the policy's queues are 0, 1`.
pub fn write_policy_queues(place: &FaultPlace, said: &mut Text) {
    if place.cause == Cause::Fault(Fault::NoSuchQueue) {
        write_queues(place.queues.ids(), said);
    }
}

fn write_queues(ids: &[u64], said: &mut Text) {
    if ids.is_empty() {
        said.push("; the policy has no queues");
        return;
    }
    let mut before = "; the policy's queues are ";
    for queue in ids {
        said.number(before, *queue);
        before = ", ";
    }
}
