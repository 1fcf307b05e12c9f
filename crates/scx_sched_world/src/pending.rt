ghost use Rattle.std.specs.Prelude.{◌≡◌, ◌≢◌, ◌==◌, ℕ, true, false, ◌<◌, length, Some};
ghost use Rattle.std.specs.Int.{bit_at};
ghost use Rattle.scx_sched_world.specs.Ids.{local_on};
ghost use Rattle.scx_sched_world.specs.Kept.{HoldPending};
ghost use Rattle.scx_sched_world.specs.Tasks.{local_len};
ghost use Rattle.scx_sched_world.specs.Pending.{has_local, is_pending, first_pending};

use crate::ids::{LOCAL_ON, LOCAL_PLACES};
use crate::world::{World, lowest_bit, with_bit};

/// The CPUs that look for work as an event by Linux rules ends.
impl World {
    /// The lowest CPU that is to look for work. Only those are looked at that were kicked, or that a task or a cycle
    /// left or a task came to since.
    #[inline(always)]
    #[tactic(auto, using(crate::proofs::Settled::none_asked))]
    pub fn first_pending(&mut self) -> Option<u32>
        ensures answer { result ≡ first_pending self.old }
        ensures world { self.new ≡ self.old }
    {
        let asked = self.asked();
        if asked == 0 {
            return None;
        }
        self.pending_among(asked)
    }

    /// CPUs among which are all that are to look for work, one bit each.
    #[inline(always)]
    #[tactic(auto, using(crate::proofs::Settled::all_asked, crate::proofs::Settled::each_asked))]
    fn asked(&self) -> u64
        ensures { HoldPending result self.now }
    {
        if self.by_linux {
            self.kicked.with_bits(self.unsettled)
        } else {
            u64::MAX
        }
    }

    /// The lowest of these CPUs that is to look for work, if all that are to are among them. Of one that isn't that is
    /// known from then on.
    #[inline(never)]
    #[tactic(auto, using(crate::proofs::Settled::none_asked, crate::proofs::Settled::past_asked, crate::proofs::Settled::here_asked, crate::proofs::Settled::rest_asked))]
    fn pending_among(&mut self, asked: u64) -> Option<u32>
        requires { HoldPending asked self.old }
        ensures answer { result ≡ first_pending self.old }
        ensures world { self.new ≡ self.old }
    {
        let Some(cpu) = lowest_bit(asked) else {
            return None;
        };
        if !self.has_cpu(cpu) {
            self.settle_all();
            return None;
        }
        if self.is_pending(cpu) {
            return Some(cpu);
        }
        self.settle(cpu);
        self.pending_among(without(asked, cpu))
    }

    /// It is known from now on that the CPU isn't idle with a task in its local queue.
    #[inline(always)]
    fn settle(&mut self, cpu: u32)
        requires there { cpu < length self.old.cpus }
        requires settled { is_pending self.old cpu ≡ false }
        ensures { self.new ≡ self.old }
    {
        self.unsettled = with_bit(self.unsettled, cpu, false);
    }

    /// It is known from now on that no CPU is idle with a task in its local queue. Nothing is asked then of CPUs that
    /// aren't there.
    #[inline(always)]
    fn settle_all(&mut self)
        requires { (c : ℕ) → c < length self.old.cpus → is_pending self.old c ≡ false }
        ensures { self.new ≡ self.old }
    {
        self.unsettled = 0;
    }

    /// True if the CPU was kicked, or is idle with a task in its local queue.
    #[inline(always)]
    fn is_pending(&self, cpu: u32) -> bool
        ensures { result ≡ is_pending self.now cpu }
    {
        self.is_kicked(cpu) || (self.is_idle(cpu) && self.has_local(cpu))
    }

    /// True if a task waits in the local queue of the CPU.
    #[inline(always)]
    #[tactic(auto, using(crate::proofs::Places::local_stands, crate::proofs::Settled::local_by_front))]
    pub fn has_local(&self, cpu: u32) -> bool
        ensures { result ≡ has_local self.now cpu }
    {
        let queue = LOCAL_ON + u64::from(cpu);
        if (cpu as usize) < self.cpus.len() {
            self.queues
                .front_at(LOCAL_PLACES + cpu as usize, queue)
                .is_some()
        } else {
            self.queues.front(queue).is_some()
        }
    }

    /// True if no task waits in the local queue of the CPU.
    #[inline(always)]
    pub fn is_local_empty(&self, cpu: u32) -> bool
        ensures { result ≡ (local_len self.now cpu == 0) }
    {
        !self.has_local(cpu)
    }
}

/// Under Linux rules the CPU, if there is one, may be idle with a task in its local queue from now on.
#[inline(always)]
#[tactic(auto, using(crate::proofs::Settled::marked_none))]
pub fn unsettle(bits: &mut u64, linux: bool, cpu: Option<u32>)
    ensures { linux ≡ true → (c : ℕ) → c < 64 → bit_at bits.new c ≡ 0
        → (bit_at bits.old c ≡ 0) × (cpu ≢ Some c) }
{
    if linux {
        if let Some(cpu) = cpu {
            *bits = marked(*bits, cpu);
        }
    }
}

/// Under Linux rules the CPU of that queue, if it is a local one, may be idle with a task in it from now on.
#[inline(always)]
#[tactic(auto, using(crate::proofs::Settled::marked_queue, crate::proofs::Settled::marked_apart))]
pub fn unsettle_at(bits: &mut u64, linux: bool, queue: u64)
    ensures { linux ≡ true → (c : ℕ) → c < 64 → bit_at bits.new c ≡ 0
        → (bit_at bits.old c ≡ 0) × (queue ≢ local_on c) }
{
    if linux && queue >= LOCAL_ON {
        *bits = marked(*bits, ((queue - LOCAL_ON) % 64) as u32);
    }
}

/// The bits with that of the CPU set. One past the last CPU sets another, so that nothing is asked.
#[inline(always)]
#[tactic(auto, using(crate::proofs::Settled::marked_low))]
fn marked(bits: u64, cpu: u32) -> u64
    ensures { (c : ℕ) → c < 64 → bit_at result c ≡ 0 → (bit_at bits c ≡ 0) × (Some cpu ≢ Some c) }
{
    with_bit(bits, cpu % 64, true)
}

/// The bits without that one.
#[inline(always)]
#[tactic(auto, using(crate::proofs::Settled::cleared_less, crate::proofs::Busy::cleared_others))]
fn without(bits: u64, at: u32) -> u64
    requires there { at < 64 }
    requires set { bit_at bits at ≡ 1 }
    ensures less { result < bits }
    ensures others { (i : ℕ) → i < 64 → i ≢ at → bit_at result i ≡ bit_at bits i }
{
    bits & !(1 << at)
}
