ghost use Rattle.std.specs.Prelude.{◌≡◌, ◌+◌, ◌≤◌, false, length, None, IfSome};
ghost use Rattle.scx_isa.specs.Flow.{Flows};
ghost use Rattle.scx_maps.specs.Contents.{lengths_of};
ghost use Rattle.scx_isa_semantics.specs.Code.{instruction_count, instructions_from};
ghost use Rattle.scx_isa_semantics.specs.Endings.{run_of};
ghost use Rattle.scx_isa_semantics.specs.Runs.{Runs};
ghost use Rattle.scx_isa_semantics.specs.Steps.{step};
ghost use Rattle.scx_vm.specs.Arguments.{program_arguments};
ghost use Rattle.scx_vm.specs.Host.{host, answer_to, after_query};
ghost use Rattle.scx_vm_tagged.specs.Outcome.{answer_of};
ghost use Rattle.scx_vm_tagged.specs.Run.{StepsTo, LeadsNearer, IfDone, IfStuck, GetsStuckAt};
ghost use Rattle.scx_vm_tagged.specs.State.{seen};
ghost use Rattle.scx_vm_tagged.specs.Watched.{Came, EndsAt, came_at};

use crate::effect::Effect;
use crate::execute::execute;
use crate::state::Core;
use crate::watch::{Unwatched, Watch};
use scx_isa::{Callback, MAX_SLOTS, Program, Value, target};
use scx_maps::Maps;
use scx_vm::{Args, Done, Env};

/// The end of a run.
#[derive(Clone, Copy, Debug, PartialEq, Eq)]
pub enum Ending {
    /// It came to an `exit`, with a number in r0 where the callback answers one.
    Done(Done),
    /// It came to this slot, counted from 0, where no instruction begins or the one there has no
    /// meaning in the state that the run had come to. It reads an unset register or bytes of the
    /// stack that hold neither a number nor one pointer, writes r10, computes with or compares a
    /// pointer in a way that has no meaning, loads or stores out of bounds or out of line or what
    /// is not a field of a task, names a map that isn't there, calls a helper that isn't there, may
    /// not be called or doesn't find what it takes, or exits with no number in r0.
    Stuck(usize),
}

/// An instruction of a run, before it is done.
#[derive(Clone, Copy)]
pub struct Site {
    /// Counted from 0.
    pub slot: usize,
    /// The values of r1 to r5.
    pub arguments: [Value; 5],
}

/// The end of a run that a `Watch` was shown.
#[derive(Clone, Copy)]
pub struct WatchedEnding {
    pub ran: Ending,
    /// The instruction by which what was awaited came about.
    pub came: Option<Site>,
    /// The slot at which the run ended or got stuck.
    pub last: usize,
}

/// Where a step led.
#[derive(Clone, Copy)]
enum Outcome {
    /// No instruction begins at the slot, or it has no meaning in this state.
    Stuck,
    /// To the instruction at this slot.
    At(usize),
    /// To the end of the run, with this answer.
    Ended(u64),
}

/// Runs a program that `flow` accepts, as that callback (RFC 9669).
///
/// Its jumps go forward, so it does each instruction at most once.
pub fn run_unwatched<E: Env>(
    program: &Program,
    callback: Callback,
    arguments: Args,
    maps: &mut Maps,
    env: &mut E,
) -> Ending
    requires flows { Flows program.now }
    requires room { instruction_count program.now ≤ E.room env.old }
    ensures done { IfDone result
        (λ done. Runs (host E.functions) callback program.now (program_arguments arguments) maps.old env.old
        done.r0 done.steps maps.new env.new) }
    ensures in_bound { IfDone result (λ done. done.steps ≤ instruction_count program.now) }
    ensures stuck { IfStuck result
        (λ slot. GetsStuckAt (host E.functions) callback program.now (program_arguments arguments) maps.old
        env.old slot maps.new env.new) }
    ensures exact { record { answer = answer_of result; maps = maps.new; outside = env.new }
        ≡ run_of (answer_to E.functions) (after_query E.functions) callback program.now
        (program_arguments arguments) maps.old env.old }
    ensures shapes { lengths_of maps.new ≡ lengths_of maps.old }
    ensures room { E.room env.old ≤ E.room env.new + instruction_count program.now }
    ensures spent { E.spent env.new ≤ E.spent env.old + instruction_count program.now }
{
    walk(program, callback, arguments, maps, env, &mut Unwatched).ran
}

/// Runs a program that `flow` accepts, as that callback, and shows each instruction to the watch before it
/// is done.
pub fn run_watched<E: Env, W: Watch<E>>(
    program: &Program,
    callback: Callback,
    arguments: Args,
    maps: &mut Maps,
    env: &mut E,
    watch: &mut W,
) -> WatchedEnding
    requires flows { Flows program.now }
    requires room { instruction_count program.now ≤ E.room env.old }
    ensures done { IfDone result.ran
        (λ done. Runs (host E.functions) callback program.now (program_arguments arguments) maps.old env.old
        done.r0 done.steps maps.new env.new) }
    ensures in_bound { IfDone result.ran (λ done. done.steps ≤ instruction_count program.now) }
    ensures stuck { IfStuck result.ran
        (λ slot. GetsStuckAt (host E.functions) callback program.now (program_arguments arguments) maps.old
        env.old slot maps.new env.new) }
    ensures exact { record { answer = answer_of result.ran; maps = maps.new; outside = env.new }
        ≡ run_of (answer_to E.functions) (after_query E.functions) callback program.now
        (program_arguments arguments) maps.old env.old }
    ensures shapes { lengths_of maps.new ≡ lengths_of maps.old }
    ensures room { E.room env.old ≤ E.room env.new + instruction_count program.now }
    ensures spent { E.spent env.new ≤ E.spent env.old + instruction_count program.now }
    ensures came { IfSome result.came
        (Came (host E.functions) W.awaited callback program.now (program_arguments arguments) maps.old
        env.old env.new) }
    ensures did_not_come { result.came ≡ None
        → W.awaited env.old ≡ false → W.awaited env.new ≡ false }
    ensures last { IfDone result.ran
        (λ done. EndsAt (host E.functions) callback program.now (program_arguments arguments) maps.old
        env.old done.r0 env.new result.last) }
{
    walk(program, callback, arguments, maps, env, watch)
}

/// Does its steps, one after another.
fn walk<E: Env, W: Watch<E>>(
    program: &Program,
    callback: Callback,
    arguments: Args,
    maps: &mut Maps,
    env: &mut E,
    watch: &mut W,
) -> WatchedEnding
    requires flows { Flows program.now }
    requires room { instruction_count program.now ≤ E.room env.old }
    ensures done { IfDone result.ran
        (λ done. Runs (host E.functions) callback program.now (program_arguments arguments) maps.old env.old
        done.r0 done.steps maps.new env.new) }
    ensures in_bound { IfDone result.ran (λ done. done.steps ≤ instruction_count program.now) }
    ensures stuck { IfStuck result.ran
        (λ slot. GetsStuckAt (host E.functions) callback program.now (program_arguments arguments) maps.old
        env.old slot maps.new env.new) }
    ensures shapes { lengths_of maps.new ≡ lengths_of maps.old }
    ensures room { E.room env.old ≤ E.room env.new + instruction_count program.now }
    ensures spent { E.spent env.new ≤ E.spent env.old + instruction_count program.now }
    ensures came { IfSome result.came
        (Came (host E.functions) W.awaited callback program.now (program_arguments arguments) maps.old
        env.old env.new) }
    ensures did_not_come { result.came ≡ None
        → W.awaited env.old ≡ false → W.awaited env.new ≡ false }
    ensures last { IfDone result.ran
        (λ done. EndsAt (host E.functions) callback program.now (program_arguments arguments) maps.old
        env.old done.r0 env.new result.last) }
{
    let mut core = Core::start(arguments);
    let mut slot = 0;
    let mut found = None;
    for steps in 0..program.slots() {
        watch.see(slot, &core, env);
        let site = Site {
            slot,
            arguments: core.arguments(),
        };
        let had_come = watch.has_come(env);
        match step(program, slot, callback, &mut core, maps, env) {
            Outcome::Stuck => return WatchedEnding {
                ran: Ending::Stuck(slot),
                came: found,
                last: slot,
            },
            Outcome::At(next) => {
                found = came_at(found, had_come, watch.has_come(env), site);
                slot = next;
            }
            Outcome::Ended(r0) => return WatchedEnding {
                ran: Ending::Done(Done {
                    r0,
                    steps: steps + 1,
                }),
                came: found,
                last: slot,
            },
        }
    }
    // As many steps as there are slots leave no instruction from this slot on.
    WatchedEnding {
        ran: Ending::Stuck(slot),
        came: found,
        last: slot,
    }
}

/// The first site: the one that was found before, else this one, if it came about here.
fn came_at(found: Option<Site>, had_come: bool, has_come: bool, site: Site) -> Option<Site>
    ensures { result ≡ came_at found had_come has_come site }
{
    if found.is_none() && !had_come && has_come {
        Some(site)
    } else {
        found
    }
}

/// Does the instruction at the slot, if one begins there.
fn step<E: Env>(
    program: &Program,
    slot: usize,
    callback: Callback,
    core: &mut Core,
    maps: &mut Maps,
    env: &mut E,
) -> Outcome
    requires flows { Flows program.now }
    requires short { length program.now ≤ MAX_SLOTS }
    requires room { instructions_from program.now slot ≤ E.room env.old }
    ensures step { StepsTo (host E.functions)
        (step callback program.now slot (seen core.old maps.old)) maps.old env.old result
        (seen core.new maps.new) env.new }
    ensures nearer { LeadsNearer program.now slot result }
    ensures shapes { lengths_of maps.new ≡ lengths_of maps.old }
    ensures room { E.room env.old ≤ E.room env.new + 1 }
    ensures spent { E.spent env.new ≤ E.spent env.old + 1 }
{
    let Some(insn) = program.at(slot) else {
        return Outcome::Stuck;
    };
    match execute(core, insn, callback, maps, env) {
        Effect::Stuck => Outcome::Stuck,
        Effect::Next => Outcome::At(slot + insn.size()),
        Effect::Jumped => Outcome::At(target(slot, insn)),
        Effect::Ended(answer) => Outcome::Ended(answer),
    }
}
