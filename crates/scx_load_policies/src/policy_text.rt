ghost use Rattle.std.specs.Prelude.{◌≡◌, ◌≤◌, map, string_bytes};
ghost use Rattle.scx_isa_semantics.specs.declared.rules.Rules.TheVariants.{Plain, Linux};
ghost use Rattle.scx_sched_policy.specs.Policy.{IsTimeout};
ghost use Rattle.scx_load_policies.specs.Policies.{IsTick, max_timers, callback_keys, program_of, without};
ghost use Rattle.scx_load_policies.specs.Reading.{file_keys, map_keys};

use scx_isa::{Callback, PerCallback, Program, Rules};
use scx_maps::MapDefs;
use std::marker::Model;

/// The programs of a policy file. Each may be absent.
pub type Programs = PerCallback<Option<Program>>;

/// The content of a policy file. Only `read_policy` makes one.
#[derive(Drop)]
pub struct PolicyText {
    pub(crate) name: String,
    pub(crate) defs: MapDefs,
    pub(crate) timeout_ms: u32,
    pub(crate) rules: Rules,
    pub(crate) tick_ms: u32,
    pub(crate) keeps_idle: bool,
    pub(crate) timers: u8,
    pub(crate) programs: Programs,
}

impl Model for PolicyText {
    ghost use Rattle.std.specs.Prelude.{◌≤◌, string_bytes};
    ghost use Rattle.scx_sched_policy.specs.Policy.{IsTimeout};
    ghost use Rattle.scx_load_policies.specs.Policies.{PolicyFile, IsTick, max_timers};

    ghost Value = { PolicyFile };

    ghost view = { λ p. record {
      name = string_bytes p.name;
      shapes = p.defs;
      timeout_ms = p.timeout_ms;
      rules = p.rules;
      tick_ms = p.tick_ms;
      keeps_idle = p.keeps_idle;
      timers = p.timers;
      programs = p.programs;
    } };

    ghost invariant = { λ p. IsTimeout p.timeout_ms × IsTick p.rules p.tick_ms
        × p.timers ≤ max_timers };
}

impl PolicyText {
    /// The policy's name, empty where the file gives none.
    pub fn name(&self) -> &str
        ensures { result.now ≡ self.now.name }
    {
        self.name.as_str()
    }

    /// The shapes of its maps.
    pub fn defs(&self) -> &MapDefs
        ensures { result.now ≡ self.now.shapes }
    {
        &self.defs
    }

    /// The longest time that a task may wait, in milliseconds.
    pub fn timeout_ms(&self) -> u32
        ensures value { result ≡ self.now.timeout_ms }
        ensures limits { IsTimeout result }
    {
        self.timeout_ms
    }

    /// The rules of the machine, plain ones where the file names none.
    pub fn rules(&self) -> Rules
        ensures { result ≡ self.now.rules }
    {
        self.rules
    }

    /// The milliseconds from tick to tick; 0 under plain rules, and where slices end exactly.
    pub fn tick_ms(&self) -> u32
        ensures value { result ≡ self.now.tick_ms }
        ensures limits { IsTick self.now.rules result }
    {
        self.tick_ms
    }

    /// True if the host tracks idle CPUs also where the policy has `update_idle`.
    pub fn keeps_idle(&self) -> bool
        ensures { result ≡ self.now.keeps_idle }
    {
        self.keeps_idle
    }

    /// The number of its timers, at most 16; none under plain rules.
    pub fn timers(&self) -> u8
        ensures value { result ≡ self.now.timers }
        ensures limits { result ≤ max_timers }
    {
        self.timers
    }

    /// Its programs.
    pub fn into_programs(self) -> Programs
        ensures { result ≡ self.programs }
    {
        let PolicyText { programs, .. } = self;
        programs
    }

    /// Takes the program of a callback out; `None` where there is none, or no more.
    pub fn take(&mut self, callback: Callback) -> Option<Program>
        ensures program { result ≡ program_of self.old callback }
        ensures rest { self.new ≡ without self.old callback }
    {
        self.programs.take(callback)
    }
}

/// The callbacks that plain rules know.
pub const PLAIN_CALLBACKS: [Callback; 7] = [
    Callback::Init,
    Callback::Enable,
    Callback::SelectCpu,
    Callback::Enqueue,
    Callback::Dispatch,
    Callback::Running,
    Callback::Stopping,
];

/// The keys of the callbacks that plain rules know, which are their names.
pub(crate) fn plain_keys() -> [&'static str; 7]
    ensures { map (λ key. key.now) result ≡ callback_keys Plain }
{
    PLAIN_CALLBACKS.map(Callback::name)
}

/// The keys of the callbacks that Linux rules know, all of them.
pub(crate) fn linux_keys() -> [&'static str; 14]
    ensures { map (λ key. key.now) result ≡ callback_keys Linux }
{
    [
        Callback::Init.name(),
        Callback::Enable.name(),
        Callback::SelectCpu.name(),
        Callback::Enqueue.name(),
        Callback::Dispatch.name(),
        Callback::Running.name(),
        Callback::Stopping.name(),
        Callback::Tick.name(),
        Callback::Dequeue.name(),
        Callback::Runnable.name(),
        Callback::Quiescent.name(),
        Callback::UpdateIdle.name(),
        Callback::SetWeight.name(),
        Callback::Timer.name(),
    ]
}

/// The keys of a file that plain rules know.
pub(crate) fn plain_file_keys() -> [&'static str; 7]
    ensures { map (λ key. key.now) result ≡ file_keys Plain }
{
    [
        "name",
        "timeout_ms",
        "rules",
        "tick_ms",
        "map",
        "code",
        "slots",
    ]
}

/// The keys of a file that Linux rules know, all of them.
pub(crate) fn linux_file_keys() -> [&'static str; 9]
    ensures { map (λ key. key.now) result ≡ file_keys Linux }
{
    [
        "name",
        "timeout_ms",
        "rules",
        "tick_ms",
        "keep_idle",
        "map",
        "timer",
        "code",
        "slots",
    ]
}

/// The keys of a map that plain rules know.
pub(crate) fn plain_map_keys() -> [&'static str; 2]
    ensures { map (λ key. key.now) result ≡ map_keys Plain }
{
    ["entries", "value_size"]
}

/// The keys of a map that Linux rules know.
pub(crate) fn linux_map_keys() -> [&'static str; 4]
    ensures { map (λ key. key.now) result ≡ map_keys Linux }
{
    ["entries", "value_size", "kind", "key_size"]
}
