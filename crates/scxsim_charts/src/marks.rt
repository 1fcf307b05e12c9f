ghost use Rattle.std.specs.Prelude.{◌≡◌, ◌*◌, ◌/◌, ◌<◌, ◌↔◌, IsTrue};
ghost use Rattle.scxsim_charts.specs.Marks.{all_waited, slept, IsHalf, IsMostlyParked, TellsTask, TellsIdle, TellsBusy, TellsPause, TellsGroup};

use crate::due_times::DUE_PARTS;

/// The letters of tasks, in their order.
const LETTERS: &[u8; 52] = b"ABCDEFGHIJKLMNOPQRSTUVWXYZabcdefghijklmnopqrstuvwxyz";

/// The letter of a task, if it has one.
pub(crate) fn letter(task: usize) -> Option<char> {
    LETTERS.get(task).map(|letter| char::from(*letter))
}

/// The main activity of a task in the time of a character.
#[derive(Clone, Copy)]
pub(crate) enum TaskMark {
    /// It ran for at least half of the time.
    Ran,
    /// It ran for less, and waited no longer.
    PartlyRan,
    /// It waited in queues for at least half of the time, or was held for a part of that.
    Waited,
    /// It waited or was held for at least half of the time, and was held for longer.
    WasHeld,
    /// It waited or was held for less than half of the time, and ran for less.
    PartlyWaited,
    /// It was parked for longer than it ran, waited or slept.
    WasParked,
    Slept,
}

impl TaskMark {
    pub(crate) fn character(self) -> char {
        match self {
            TaskMark::Ran => '#',
            TaskMark::PartlyRan => '+',
            TaskMark::Waited => '-',
            TaskMark::WasHeld => 'h',
            TaskMark::PartlyWaited => ',',
            TaskMark::WasParked => 'p',
            TaskMark::Slept => ' ',
        }
    }
}

/// The reason of idle time.
#[derive(Clone, Copy)]
pub(crate) enum Idleness {
    /// No task waited.
    Unneeded,
    /// A task waited for at least half of the idle time.
    Lost,
    /// A task waited for less than half of the idle time.
    PartlyLost,
}

impl Idleness {
    fn character(self) -> char {
        match self {
            Idleness::Unneeded => '.',
            Idleness::Lost => '!',
            Idleness::PartlyLost => ':',
        }
    }
}

/// The main activity of a CPU, or of all of them, in the time of a character.
#[derive(Clone, Copy)]
pub(crate) enum CpuMark {
    /// The task of that number ran for at least half of the time.
    Task(usize),
    /// Several tasks ran for at least half of the time together, and none alone.
    Several,
    /// Tasks ran for that many tenths of the time, at least 1.
    Tenths(u64),
    /// Tasks ran all along.
    All,
    /// CPUs were idle for most of the time.
    Idle(Idleness),
}

impl CpuMark {
    pub(crate) fn character(self) -> char {
        match self {
            CpuMark::Task(task) => letter(task).unwrap_or('*'),
            CpuMark::Several => '*',
            CpuMark::Tenths(tenths) => digit(tenths),
            CpuMark::All => '#',
            CpuMark::Idle(idleness) => idleness.character(),
        }
    }
}

/// The time that the tasks of a group ran in the time of a character, beside the time that was due.
#[derive(Clone, Copy)]
pub(crate) enum GroupMark {
    /// They ran for all that was due, or longer.
    All,
    /// They ran for that many tenths of what was due, rounded down.
    Tenths(u64),
    /// None ran, and some waited.
    Waited,
    /// They were parked for longer than they waited, and didn't run for all that was due.
    WereParked,
    Slept,
}

impl GroupMark {
    pub(crate) fn character(self) -> char {
        match self {
            GroupMark::All => '#',
            GroupMark::Tenths(tenths) => digit(tenths),
            GroupMark::Waited => '-',
            GroupMark::WereParked => 'p',
            GroupMark::Slept => ' ',
        }
    }
}

/// The times of the tasks of a row in a character; they slept for the rest.
#[derive(Clone, Copy)]
pub(crate) struct Times {
    pub(crate) ran: u64,
    pub(crate) waited: u64,
    pub(crate) held: u64,
    pub(crate) parked: u64,
}

impl Times {
    /// The time that they waited for a CPU, in a queue or held.
    fn all_waited(self) -> u128
        ensures { result ≡ all_waited self }
    {
        u128::from(self.waited) + u128::from(self.held)
    }

    /// The rest of the time of a character.
    fn slept(self, length: u64) -> u128
        ensures { result ≡ slept self length }
    {
        let awake = u128::from(self.ran) + self.all_waited() + u128::from(self.parked);
        u128::from(length).saturating_sub(awake)
    }

    /// True if they were parked for longer than they ran or waited, and at least as long as they slept.
    fn are_parked(self, length: u64) -> bool
        ensures { IsTrue result ↔ IsMostlyParked self length }
    {
        let parked = u128::from(self.parked);
        self.ran < self.parked && self.all_waited() < parked && self.slept(length) <= parked
    }
}

/// The mark of a task with these times in a character of that length.
pub(crate) fn task_mark(times: Times, length: u64) -> TaskMark
    ensures tells { TellsTask result times length }
    ensures parked { IsMostlyParked times length → result ≡ TaskMark.WasParked }
{
    let waited = times.all_waited();
    if times.are_parked(length) {
        TaskMark::WasParked
    } else if u128::from(times.ran) < waited {
        wait_mark(times, length)
    } else if is_half(u128::from(times.ran), length) {
        TaskMark::Ran
    } else if 0 < times.ran {
        TaskMark::PartlyRan
    } else {
        TaskMark::Slept
    }
}

/// The mark of a task that waited for longer than it ran.
fn wait_mark(times: Times, length: u64) -> TaskMark
    requires { times.ran < all_waited times }
    ensures { TellsTask result times length }
{
    if !is_half(times.all_waited(), length) {
        TaskMark::PartlyWaited
    } else if times.waited < times.held {
        TaskMark::WasHeld
    } else {
        TaskMark::Waited
    }
}

/// The reason of the idle time of CPUs, in a part of which a task waited.
pub(crate) fn why_idle(lost: u64, idle: u64) -> Idleness
    ensures { TellsIdle result lost idle }
{
    if lost == 0 {
        Idleness::Unneeded
    } else if is_half(u128::from(lost), idle) {
        Idleness::Lost
    } else {
        Idleness::PartlyLost
    }
}

/// The mark of all CPUs, on which tasks ran for a part of their time, and a task waited while some were idle.
pub(crate) fn busy_mark(ran: u64, whole: u64, lost: u64) -> CpuMark
    ensures { TellsBusy result ran whole lost }
{
    if whole <= ran {
        return CpuMark::All;
    }
    match tenths(u128::from(ran), whole) {
        0 => CpuMark::Idle(why_idle(lost, whole.saturating_sub(ran))),
        tenths => CpuMark::Tenths(tenths),
    }
}

/// The mark of a group with these times, to which so much time was due, in smaller parts.
pub(crate) fn group_mark(times: Times, due: u64) -> GroupMark
    ensures { TellsGroup result times due }
{
    if times.ran == 0 {
        return pause_mark(times);
    }
    let ran = u128::from(times.ran) * u128::from(DUE_PARTS);
    if u128::from(due) <= ran {
        GroupMark::All
    } else if times.all_waited() < u128::from(times.parked) {
        GroupMark::WereParked
    } else {
        GroupMark::Tenths(tenths(ran, due))
    }
}

/// The mark of a group whose tasks didn't run.
fn pause_mark(times: Times) -> GroupMark
    ensures { TellsPause result times }
{
    if 0 < times.all_waited() {
        GroupMark::Waited
    } else if 0 < times.parked {
        GroupMark::WereParked
    } else {
        GroupMark::Slept
    }
}

/// The tenths of a whole that a smaller part is, rounded down.
fn tenths(part: u128, whole: u64) -> u64
    requires { part < whole }
    ensures { result ≡ part * 10 / whole }
{
    (part * 10 / u128::from(whole)) as u64
}

/// The digit of some tenths.
fn digit(tenths: u64) -> char {
    char::from(b'0'.saturating_add(tenths.min(9) as u8))
}

/// True if one time is at least half of another, and not none.
pub(crate) fn is_half(part: u128, whole: u64) -> bool
    ensures { IsTrue result ↔ IsHalf part whole }
{
    0 < part && u128::from(whole).saturating_sub(part) <= part
}
