ghost use Rattle.std.specs.Prelude.{◌≡◌, Some, None, IfOk, IfErr, OnOk};
ghost use Rattle.scx_sched_world.specs.Kept.{AreOccupied, AreTaken};
ghost use Rattle.scx_sched_world.specs.World.{is_idle, is_claimed, is_free, lowest_cpu, is_free_for, with_tracking, free_choice, choice, default_choice, this_if, after_claim};
ghost use Rattle.scx_sched_world.specs.Helpers.{choice_answer, after_choice, seems_idle, ask_fault, idle_answer, after_idle, pick_fault, first_free_in, pick_answer, after_pick, claim_answer, after_claim_of};

use crate::faults::Fault;
use crate::ids::BUSY;
use crate::world::{World, with_bit};

/// Idle CPUs, and the choice of one for a task.
impl World {
    /// True if no task runs on the CPU, and no cycle is under way there.
    pub fn is_idle(&self, cpu: u32) -> bool
        ensures { result ≡ is_idle self.now cpu }
    {
        (cpu as usize) < self.cpus.len()
            && self.cpus[cpu as usize].is_none()
            && self.cycling != Some(cpu)
    }

    /// True if the CPU was chosen for a task, and no cycle has begun there since.
    #[inline(always)]
    pub(crate) fn is_claimed(&self, cpu: u32) -> bool
        ensures { result ≡ is_claimed self.now cpu }
    {
        self.is_by_linux() && self.claimed.has(cpu)
    }

    /// True if the CPU may be chosen for a task.
    pub fn is_free(&self, cpu: u32) -> bool
        ensures { result ≡ is_free self.now cpu }
    {
        self.is_idle(cpu) && !self.is_claimed(cpu)
    }

    /// From now on the host tells the policy which CPUs are idle, or doesn't.
    pub fn set_tracking(&mut self, tracks: bool)
        ensures world { self.new ≡ with_tracking self.old tracks }
        ensures few { self.new.queues.pushes ≡ self.old.queues.pushes }
    {
        self.tracks_idle = tracks;
    }

    /// The CPU that the host chooses for the task, if one is free. It chooses none where it doesn't track idle CPUs.
    pub fn choice(&self, task: u16) -> Option<u32>
        ensures { result ≡ choice self.now task }
    {
        if self.tracks_idle {
            self.free_choice(task)
        } else {
            None
        }
    }

    /// True if the CPU may be chosen for that task.
    fn is_free_for(&self, task: u16, cpu: u32) -> bool
        ensures { result ≡ is_free_for self.now task cpu }
    {
        self.may_run(task, cpu) && self.is_free(cpu)
    }

    /// The CPU of the task if it is free, else the lowest free one, of those on which it may run, if there is one.
    fn free_choice(&self, task: u16) -> Option<u32>
        ensures { result ≡ free_choice self.now task }
    {
        let prev = self.task(task).prev_cpu;
        if self.is_free_for(task, prev) {
            Some(prev)
        } else {
            self.first_free(task)
        }
    }

    /// The CPU that the host chooses for the task, else the task's own.
    pub fn default_choice(&self, task: u16) -> u32
        ensures { result ≡ default_choice self.now task }
    {
        match self.choice(task) {
            Some(cpu) => cpu,
            None => self.task(task).prev_cpu,
        }
    }

    /// The lowest free CPU on which the task may run.
    fn first_free(&self, task: u16) -> Option<u32>
        ensures { result ≡ lowest_cpu self.now (is_free_for self.now task) }
    {
        self.lowest_of(self.homes(task) & !self.taken())
    }

    /// The processors that aren't free, one bit each.
    #[tactic(auto, using(crate::proofs::Busy::taken_claimed, crate::proofs::Busy::taken_unclaimed))]
    pub(crate) fn taken(&self) -> u64
        ensures { AreTaken result self.now }
    {
        let occupied = self.occupied();
        if self.is_by_linux() {
            self.claimed.with_bits(occupied)
        } else {
            occupied
        }
    }

    /// The processors that aren't idle, one bit each.
    #[tactic(auto, using(crate::proofs::Busy::occupied_none, crate::proofs::Busy::occupied_past, crate::proofs::Busy::occupied_set))]
    fn occupied(&self) -> u64
        ensures { AreOccupied result self.now }
    {
        match self.cycling {
            Some(cpu) => {
                if (cpu as usize) < self.cpus.len() {
                    with_bit(self.busy, cpu, true)
                } else {
                    self.busy
                }
            }
            None => self.busy,
        }
    }

    /// Under Linux rules the processor is claimed, by the callback at hand.
    pub fn claim(&mut self, cpu: Option<u32>)
        ensures world { self.new ≡ after_claim self.old cpu }
        ensures few { self.new.queues.pushes ≡ self.old.queues.pushes }
    {
        if let Some(cpu) = cpu {
            if self.is_by_linux() {
                self.claimed = self.claimed.and(cpu);
                self.call.claim(cpu);
            }
        }
    }

    // ---- helpers that ask for idle CPUs

    /// Chooses a CPU for the task by default, unless that is a fault. Linux rules claim it.
    pub(crate) fn choose(&mut self, task: Option<u16>) -> u64
        ensures answer { result ≡ choice_answer self.old task }
        ensures world { self.new ≡ after_choice self.old task }
        ensures few { self.new.queues.pushes ≡ self.old.queues.pushes }
    {
        let Some(task) = task else {
            return 0;
        };
        if !self.tracks_idle {
            return self.fault(Fault::IdleUntracked);
        }
        let choice = self.free_choice(task);
        let prev = self.task(task).prev_cpu;
        self.claim(choice);
        u64::from(choice.unwrap_or(prev))
    }

    /// True if a callback is told that the CPU is idle.
    fn seems_idle(&self, cpu: u32) -> bool
        ensures { result ≡ seems_idle self.now cpu }
    {
        self.is_idle(cpu) && (!self.is_claimed(cpu) || self.call.claims().has(cpu))
    }

    /// The CPU of that number, if the host can be asked whether it is idle.
    fn asked_cpu(&self, cpu: u64) -> Result<u32, Fault>
        ensures cpu { IfOk result (λ here. here ≡ cpu) }
        ensures known { OnOk result (ask_fault self.now cpu ≡ None) }
        ensures fault { IfErr result (λ fault. ask_fault self.now cpu ≡ Some fault) }
    {
        if !self.tracks_idle {
            return Err(Fault::IdleUntracked);
        }
        if cpu >= self.cpus.len() as u64 {
            return Err(Fault::NoSuchCpu);
        }
        Ok(cpu as u32)
    }

    pub(crate) fn ask_idle(&mut self, cpu: u64) -> u64
        ensures answer { result ≡ idle_answer self.old cpu }
        ensures world { self.new ≡ after_idle self.old cpu }
        ensures few { self.new.queues.pushes ≡ self.old.queues.pushes }
    {
        match self.asked_cpu(cpu) {
            Ok(cpu) => u64::from(self.seems_idle(cpu)),
            Err(fault) => self.fault(fault),
        }
    }

    /// Why no CPU can be chosen from a mask with these flags.
    fn pick_fault(&self, flags: u64) -> Option<Fault>
        ensures { result ≡ pick_fault self.now flags }
    {
        if !self.tracks_idle {
            Some(Fault::IdleUntracked)
        } else if flags > 1 {
            Some(Fault::UnknownFlag)
        } else {
            None
        }
    }

    /// Claims the lowest free CPU of the mask, and answers it.
    pub(crate) fn pick_idle(&mut self, mask: u64, flags: u64) -> u64
        ensures answer { result ≡ pick_answer self.old mask flags }
        ensures world { self.new ≡ after_pick self.old mask flags }
        ensures few { self.new.queues.pushes ≡ self.old.queues.pushes }
    {
        if let Some(fault) = self.pick_fault(flags) {
            return self.fault(fault);
        }
        let picked = self.first_free_in(mask);
        self.claim(picked);
        match picked {
            Some(cpu) => u64::from(cpu),
            None => BUSY,
        }
    }

    /// The lowest free CPU of the mask.
    fn first_free_in(&self, mask: u64) -> Option<u32>
        ensures { result ≡ first_free_in mask self.now }
    {
        self.lowest_of(mask & !self.taken())
    }

    /// Claims the CPU if it is free, and answers 1 if it was.
    pub(crate) fn claim_idle(&mut self, cpu: u64) -> u64
        ensures answer { result ≡ claim_answer self.old cpu }
        ensures world { self.new ≡ after_claim_of self.old cpu }
        ensures few { self.new.queues.pushes ≡ self.old.queues.pushes }
    {
        match self.asked_cpu(cpu) {
            Ok(cpu) => u64::from(self.claim_free(cpu)),
            Err(fault) => self.fault(fault),
        }
    }

    /// Claims the CPU if it is free, and returns whether it was.
    fn claim_free(&mut self, cpu: u32) -> bool
        ensures answer { result ≡ is_free self.old cpu }
        ensures world { self.new ≡ after_claim self.old (this_if (is_free self.old cpu) cpu) }
        ensures few { self.new.queues.pushes ≡ self.old.queues.pushes }
    {
        let free = self.is_free(cpu);
        if free {
            self.claim(Some(cpu));
        }
        free
    }
}
