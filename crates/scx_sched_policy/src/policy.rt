ghost use Rattle.std.specs.Prelude.{◌≡◌, ◌↔◌, option_map, is_some, IsTrue, IfOk, OnOk, IfErr, None, IfSome};
ghost use Rattle.scx_sched_policy.specs.Policy.{IsTimeout, IsAs, HasMaps, AreAs, HaveMaps, AreBy, IsFault, program_of, policy_of, policy_by, with_ticks, with_idle_kept, with_timers, with_seed, tracks_idle};
ghost use Rattle.scx_isa_semantics.specs.declared.rules.Rules.TheVariants.{Plain};
ghost use Rattle.scx_isa_semantics.specs.declared.callbacks.Callback.TheVariants.{Dispatch};
ghost use Rattle.scx_sched_world.specs.World.{are_linux};
ghost use Rattle.scx_sched_policy.specs.Vain.{queues_in, asked_in};

use crate::vain::{Asked, asked_by};
use scx_isa::{CALLBACKS, Callback, PerCallback, Rules};
use scx_maps::MapDefs;
use scx_verify::Verified;
use std::alloc::{AllocError, Global};
use std::marker::Model;
use thiserror::Error;

/// The programs of a policy. Each may be absent.
pub type Callbacks = PerCallback<Option<Verified>>;

/// The reason why programs don't make a policy: the first one, if there are several.
#[derive(Clone, Copy, Debug, PartialEq, Eq, Error)]
pub enum BadPolicy {
    /// A task might wait for no time at all, or for longer than half a minute.
    #[error("the timeout isn't one of 1 to 30000 milliseconds")]
    BadTimeout,
    /// A program is given for a callback, but was verified as another.
    #[error("a program was verified for another callback")]
    OtherCallback,
    /// A program was verified for maps of other shapes than the policy's.
    #[error("a program was verified for other maps")]
    OtherMaps,
    /// A program was verified by Linux rules, and the policy goes by plain ones.
    #[error("a program was verified by other rules")]
    OtherRules,
}

/// A scheduling policy: its programs, each verified for its callback, for maps of these shapes and by its
/// rules, and how long a task may wait.
#[derive(Drop)]
pub struct Policy {
    defs: MapDefs,
    timeout_ms: u32,
    rules: Rules,
    tick_ms: u32,
    keeps_idle: bool,
    timers: u8,
    seed: u64,
    callbacks: Callbacks,
    /// The queues that dispatch asks in vain, if it does nothing else.
    asked: Option<Asked>,
}

impl Model for Policy {
    ghost use Rattle.std.specs.Prelude.{◌≡◌, option_map};
    ghost use Rattle.scx_sched_policy.specs.Policy.{PolicyState, IsTimeout, AreAs, HaveMaps, AreBy};
    ghost use Rattle.scx_sched_policy.specs.Vain.{queues_in, asked_in};

    ghost Value = { PolicyState };

    ghost view = { λ p. record {
      shapes = p.defs;
      timeout_ms = p.timeout_ms;
      rules = p.rules;
      tick_ms = p.tick_ms;
      keeps_idle = p.keeps_idle;
      timers = p.timers;
      seed = p.seed;
      callbacks = p.callbacks;
    } };

    ghost invariant = { λ p. IsTimeout p.timeout_ms × AreAs p.callbacks × HaveMaps p.defs p.callbacks
        × AreBy p.rules p.callbacks
        × (option_map queues_in p.asked ≡ asked_in p.callbacks.dispatch) };
}

impl Policy {
    /// A policy of these programs, by plain rules.
    pub fn new(defs: MapDefs, timeout_ms: u32, callbacks: Callbacks) -> Result<Policy, BadPolicy>
        ensures made { IfOk result (λ policy. policy ≡ policy_of defs timeout_ms callbacks) }
        ensures timeout { OnOk result (IsTimeout timeout_ms) }
        ensures programs { OnOk result (AreAs callbacks) }
        ensures maps { OnOk result (HaveMaps defs callbacks) }
        ensures rules { OnOk result (AreBy Plain callbacks) }
        ensures refused { IfErr result (IsFault Plain defs timeout_ms callbacks) }
    {
        Policy::new_by(Rules::Plain, defs, timeout_ms, callbacks)
    }

    /// A policy of these programs, by those rules. Slices end exactly, it has no timers, and random numbers begin
    /// at 0.
    pub fn new_by(
        rules: Rules,
        defs: MapDefs,
        timeout_ms: u32,
        callbacks: Callbacks,
    ) -> Result<Policy, BadPolicy>
        ensures made { IfOk result (λ policy. policy ≡ policy_by rules defs timeout_ms callbacks) }
        ensures timeout { OnOk result (IsTimeout timeout_ms) }
        ensures programs { OnOk result (AreAs callbacks) }
        ensures maps { OnOk result (HaveMaps defs callbacks) }
        ensures rules { OnOk result (AreBy rules callbacks) }
        ensures refused { IfErr result (IsFault rules defs timeout_ms callbacks) }
    {
        match check_parts(rules, &defs, timeout_ms, &callbacks) {
            Ok(()) => {
                let asked = asked_in(&callbacks.dispatch);
                Ok(made(rules, defs, timeout_ms, callbacks, asked))
            }
            Err(fault) => {
                drop(callbacks);
                Err(fault)
            }
        }
    }

    /// The policy with ticks that many milliseconds apart: under Linux rules slices end at ticks alone. With 0
    /// they end exactly.
    pub fn with_ticks(mut self, tick_ms: u32) -> Policy
        ensures { result ≡ with_ticks self tick_ms }
    {
        self.tick_ms = tick_ms;
        self
    }

    /// The policy for which the host tracks idle CPUs, whatever callbacks it has (`SCX_OPS_KEEP_BUILTIN_IDLE`).
    pub fn with_idle_kept(mut self) -> Policy
        ensures { result ≡ with_idle_kept self }
    {
        self.keeps_idle = true;
        self
    }

    /// The policy with that many timers, none of which is started as it begins.
    pub fn with_timers(mut self, count: u8) -> Policy
        ensures { result ≡ with_timers self count }
    {
        self.timers = count;
        self
    }

    /// The policy whose random numbers begin at that seed.
    pub fn with_seed(mut self, seed: u64) -> Policy
        ensures { result ≡ with_seed self seed }
    {
        self.seed = seed;
        self
    }

    /// A copy of the policy, in memory of its own.
    pub fn duplicate(&self, alloc: Global) -> Result<Policy, AllocError>
        ensures { IfOk result (λ copy. copy ≡ self.now) }
    {
        let callbacks = duplicates_of(&self.callbacks, alloc)?;
        Ok(Policy {
            defs: self.defs,
            timeout_ms: self.timeout_ms,
            rules: self.rules,
            tick_ms: self.tick_ms,
            keeps_idle: self.keeps_idle,
            timers: self.timers,
            seed: self.seed,
            callbacks,
            asked: self.asked,
        })
    }

    /// The shapes of its maps.
    pub fn defs(&self) -> &MapDefs
        ensures shapes { result.now ≡ self.now.shapes }
        ensures timeout { IsTimeout self.now.timeout_ms }
        ensures programs { AreAs self.now.callbacks }
    {
        &self.defs
    }

    /// The longest wait that the policy may let a task have, in milliseconds.
    pub fn timeout_ms(&self) -> u64
        ensures { result ≡ self.now.timeout_ms }
    {
        u64::from(self.timeout_ms)
    }

    /// The rules of the machine while the policy is in force.
    pub fn rules(&self) -> Rules
        ensures { result ≡ self.now.rules }
    {
        self.rules
    }

    /// The number of milliseconds from tick to tick; 0 where slices end exactly.
    #[inline(always)]
    pub fn tick_ms(&self) -> u64
        ensures { result ≡ self.now.tick_ms }
    {
        u64::from(self.tick_ms)
    }

    /// True if the host tracks idle CPUs even where the policy has `update_idle`.
    pub fn keeps_idle(&self) -> bool
        ensures { result ≡ self.now.keeps_idle }
    {
        self.keeps_idle
    }

    /// The number of its timers.
    pub fn timers(&self) -> u8
        ensures { result ≡ self.now.timers }
    {
        self.timers
    }

    /// The seed of its random numbers.
    pub fn seed(&self) -> u64
        ensures { result ≡ self.now.seed }
    {
        self.seed
    }

    /// True if the host tracks idle CPUs: under Linux rules a policy with `update_idle` does so itself.
    pub fn tracks_idle(&self) -> bool
        ensures { result ≡ tracks_idle self.now }
    {
        self.keeps_idle || !(self.is_by_linux() && self.has_program(Callback::UpdateIdle))
    }

    fn is_by_linux(&self) -> bool
        ensures { result ≡ are_linux self.now.rules }
    {
        match self.rules {
            Rules::Linux => true,
            Rules::Plain => false,
        }
    }

    /// The program of a callback.
    #[inline(always)]
    pub fn program(&self, callback: Callback) -> Option<&Verified>
        ensures program { option_map (λ p. p.now) result ≡ program_of self.now callback }
        ensures callback { IsAs callback (program_of self.now callback) }
        ensures maps { HasMaps self.now.shapes (program_of self.now callback) }
    {
        self.callbacks.get(callback)
    }

    /// The queues that dispatch asks in vain, if it does nothing else.
    #[inline(always)]
    pub fn asked(&self) -> Option<Asked>
        ensures { option_map queues_in result ≡ asked_in (program_of self.now Dispatch) }
    {
        self.asked
    }

    /// True if the callback has a program.
    #[inline(always)]
    pub fn has_program(&self, callback: Callback) -> bool
        ensures { result ≡ is_some (program_of self.now callback) }
    {
        self.program(callback).is_some()
    }
}

/// The policy of these parts.
fn made(
    rules: Rules,
    defs: MapDefs,
    timeout_ms: u32,
    callbacks: Callbacks,
    asked: Option<Asked>,
) -> Policy
    requires timeout { IsTimeout timeout_ms }
    requires programs { AreAs callbacks }
    requires maps { HaveMaps defs callbacks }
    requires rules { AreBy rules callbacks }
    requires asked { option_map queues_in asked ≡ asked_in callbacks.dispatch }
    ensures { result ≡ policy_by rules defs timeout_ms callbacks }
{
    Policy {
        defs,
        timeout_ms,
        rules,
        tick_ms: 0,
        keeps_idle: false,
        timers: 0,
        seed: 0,
        callbacks,
        asked,
    }
}

/// The queues that dispatch asks in vain, if it does nothing else.
fn asked_in(dispatch: &Option<Verified>) -> Option<Asked>
    ensures { option_map queues_in result ≡ asked_in dispatch.now }
{
    match dispatch {
        Some(program) => asked_by(program.program()),
        None => Some(Asked::Nothing),
    }
}

/// A copy of the programs, in memory of its own.
fn duplicates_of(callbacks: &Callbacks, alloc: Global) -> Result<Callbacks, AllocError>
    ensures { IfOk result (λ copy. copy ≡ callbacks.now) }
{
    let mut copies = PerCallback::none();
    match set_duplicates(&mut copies, callbacks, alloc) {
        Ok(()) => Ok(copies),
        Err(error) => Err(error),
    }
}

/// Sets the programs to copies of the others, in memory of their own.
fn set_duplicates(
    copies: &mut Callbacks,
    callbacks: &Callbacks,
    alloc: Global,
) -> Result<(), AllocError>
    ensures { OnOk result (copies.new ≡ callbacks.now) }
{
    for callback in CALLBACKS {
        let copy = duplicate_of(callbacks.get(callback), alloc)?;
        copies.set(callback, copy);
    }
    Ok(())
}

/// A copy of the program, if there is one, in memory of its own.
fn duplicate_of(program: Option<&Verified>, alloc: Global) -> Result<Option<Verified>, AllocError>
    ensures { IfOk result (λ copy. copy ≡ option_map (λ p. p.now) program.entry) }
{
    match program {
        Some(program) => Ok(Some(program.duplicate(alloc)?)),
        None => Ok(None),
    }
}

/// The first thing wrong with a policy of these programs.
fn check_parts(
    rules: Rules,
    defs: &MapDefs,
    timeout_ms: u32,
    callbacks: &Callbacks,
) -> Result<(), BadPolicy>
    ensures refused { IfErr result (IsFault rules defs.now timeout_ms callbacks.now) }
    ensures timeout { OnOk result (IsTimeout timeout_ms) }
    ensures programs { OnOk result (AreAs callbacks.now) }
    ensures maps { OnOk result (HaveMaps defs.now callbacks.now) }
    ensures rules { OnOk result (AreBy rules callbacks.now) }
{
    if timeout_ms < 1 || timeout_ms > 30_000 {
        return Err(BadPolicy::BadTimeout);
    }
    if !are_as(callbacks) {
        return Err(BadPolicy::OtherCallback);
    }
    if !have_maps(callbacks, defs) {
        return Err(BadPolicy::OtherMaps);
    }
    if !are_by(callbacks, rules) {
        return Err(BadPolicy::OtherRules);
    }
    Ok(())
}

/// True if each program was verified as the callback whose program it is.
fn are_as(callbacks: &Callbacks) -> bool
    ensures { IsTrue result ↔ AreAs callbacks.now }
{
    callbacks.all(|callback, program| program.callback() == callback)
}

/// True if each program was verified for these maps.
fn have_maps(callbacks: &Callbacks, defs: &MapDefs) -> bool
    ensures { IsTrue result ↔ HaveMaps defs.now callbacks.now }
{
    callbacks.all(|_callback, program| *program.defs() == *defs)
}

/// True if each program was verified by rules that a policy by these may have: Linux rules accept whatever
/// plain ones do.
fn are_by(callbacks: &Callbacks, rules: Rules) -> bool
    ensures { IsTrue result ↔ AreBy rules callbacks.now }
{
    callbacks.all(|_callback, program| match rules {
        Rules::Linux => true,
        Rules::Plain => program.rules() == Rules::Plain,
    })
}
