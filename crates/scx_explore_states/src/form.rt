ghost use Rattle.std.specs.Prelude.{◌≡◌, ◌≤◌};
ghost use Rattle.scx_explore_states.specs.Rows.{slice_kept};
ghost use Rattle.scx_explore_states.specs.Written.{IsSuited, needs_slices};

use crate::map_words::MapWords;
use crate::rows::kept_tasks;
use crate::ticks::is_endless;
use scx_isa::Rules;
use scx_sched::Sim;

/// The most tasks of a machine that is searched.
pub const MOST_TASKS: usize = 8;

/// The parts of a state that are kept, beside places of tasks, usages of groups with quotas, maps and, under Linux rules, the claims and kicks of CPUs, the time since the last tick, and timers.
#[derive(Clone, Copy)]
pub struct Form {
    /// The clock.
    pub clock: bool,
    /// The number of accepted pushes, which no program can tell.
    pub pushes: bool,
    /// The waits of tasks.
    pub waits: bool,
    /// The slices of tasks that sleep or are held, as slices are kept.
    pub idle_slices: bool,
    /// The slices of tasks. Where they are left out, it is kept which of them never end.
    pub slices: bool,
    /// The virtual times by which tasks wait in queues.
    pub keys: bool,
    /// The virtual times of tasks.
    pub vtime: bool,
    /// The run times of tasks.
    pub run_ns: bool,
    /// The number from which the next random one is made.
    pub random: bool,
    /// The numbers of tasks, by which those of a group are told apart.
    pub names: bool,
    /// The weights of groups and tasks. A machine doesn't tell them: a search whose lists set weights keeps the last ones,
    /// in words after those of the state.
    pub weights: bool,
    /// The words of maps.
    pub map_words: MapWords,
}

impl Form {
    /// Everything.
    pub const PLAIN: Form = Form {
        clock: true,
        pushes: true,
        waits: true,
        idle_slices: true,
        slices: true,
        keys: true,
        vtime: true,
        run_ns: true,
        random: true,
        names: true,
        weights: true,
        map_words: MapWords::Whole,
    };

    /// The form for states after that one of the machine. Slices are kept by Linux rules, and where a group has a quota.
    /// Where maps have more than 4,096 bytes, most of them 0, only the others are kept, with room for sixteen more words
    /// for each task and CPU.
    pub fn suited_to(self, sim: &Sim) -> Form
        ensures { IsSuited self sim.now result }
    {
        let more = 16 * (usize::from(sim.tasks()) + sim.cpus() as usize);
        let needed = needs_slices(sim);
        Form {
            slices: self.slices || needed,
            map_words: MapWords::of(sim.maps(), more),
            ..self
        }
    }

    /// The slice as it is kept: 1 for one that never ends and 0 else, where slices are left out.
    pub fn kept_slice(self, slice: u64) -> u64
        ensures { result ≡ slice_kept self.slices slice }
    {
        if self.slices {
            slice
        } else {
            u64::from(is_endless(slice))
        }
    }

    /// The number of words of a state of this machine.
    pub fn width(self, sim: &Sim) -> usize {
        let tasks = kept_tasks(sim);
        1 + tasks.div_ceil(2)
            + tasks * self.task_words()
            + usize::from(self.clock)
            + usize::from(self.pushes)
            + usize::from(self.random)
            + usage_words(sim)
            + rules_words(sim)
            + self.map_words.width(sim.maps())
    }

    /// The number of words of each task, beside half a word.
    fn task_words(self) -> usize
        ensures { result ≤ 4 }
    {
        1 + usize::from(self.keys) + usize::from(self.vtime) + usize::from(self.run_ns)
    }
}

/// True if states of this machine are to keep slices: by Linux rules, and where a group has a quota.
fn needs_slices(sim: &Sim) -> bool
    ensures { result ≡ needs_slices sim.now.state.world }
{
    match sim.world().rules() {
        Rules::Plain => sim.world().is_limited(),
        Rules::Linux => true,
    }
}

/// The number of words for the usages of groups.
fn usage_words(sim: &Sim) -> usize
    ensures { result ≤ 4294967296 }
{
    if sim.world().is_limited() {
        sim.groups() as usize + 1
    } else {
        0
    }
}

/// The number of words under Linux rules beside those of plain ones.
fn rules_words(sim: &Sim) -> usize
    ensures { result ≤ 8589934596 }
{
    match sim.world().rules() {
        Rules::Plain => 0,
        Rules::Linux => 4 + 2 * sim.world().timers() as usize,
    }
}
