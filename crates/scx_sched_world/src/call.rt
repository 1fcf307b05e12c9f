ghost use Rattle.std.specs.Prelude.{◌≡◌, Some};
ghost use Rattle.scx_sched_world.specs.CpuSets.{and_cpu};
ghost use Rattle.scx_sched_world.specs.Calls.{call_of};
ghost use Rattle.scx_sched_world.specs.Tasks.{queue_for, for_cpu, to_held, to_global, to_local, to_front};
ghost use Rattle.scx_sched_world.specs.World.{no_call};

use crate::cpu_set::CpuSet;
use crate::eject::Cause;
use crate::ids::{GLOBAL, HELD, LOCAL, LOCAL_ON};
use scx_dsq::Rank;
use scx_isa::Callback;
use scx_sched_tasks::DEFAULT_SLICE;

/// Where a callback wants a task to wait.
#[derive(Clone, Copy)]
pub struct Insert {
    pub queue: u64,
    /// Its slice from then on; 0 keeps the one that it has.
    pub slice: u64,
    /// In order of arrival, or by the virtual time that it has from then on.
    pub rank: Rank,
    /// True if the task that runs on the CPU of its local queue loses its slice.
    pub preempts: bool,
    /// True if a slice of 0 that is kept becomes 1.
    pub refills: bool,
}

impl Insert {
    /// The insert for a task that a policy took and put nowhere.
    pub fn held() -> Insert
        ensures { result ≡ to_held }
    {
        Insert {
            queue: HELD,
            slice: 0,
            rank: Rank::Fifo,
            preempts: false,
            refills: false,
        }
    }

    /// The insert for a task that any CPU may run.
    pub fn global() -> Insert
        ensures { result ≡ to_global }
    {
        Insert {
            queue: GLOBAL,
            slice: DEFAULT_SLICE,
            rank: Rank::Fifo,
            preempts: false,
            refills: false,
        }
    }

    /// The insert for a task for which that CPU was chosen by default.
    pub fn local(cpu: u32) -> Insert
        ensures { result ≡ to_local cpu }
    {
        Insert {
            queue: LOCAL_ON + u64::from(cpu),
            slice: DEFAULT_SLICE,
            rank: Rank::Fifo,
            preempts: false,
            refills: false,
        }
    }

    /// The insert for a task that is stopped on that CPU with some of its slice left.
    pub fn front(cpu: u32) -> Insert
        ensures { result ≡ to_front cpu }
    {
        Insert {
            queue: LOCAL_ON + u64::from(cpu),
            slice: 0,
            rank: Rank::Front,
            preempts: false,
            refills: false,
        }
    }

    /// This insert, with LOCAL read as the local queue of that CPU.
    pub fn for_cpu(self, cpu: u32) -> Insert
        ensures { result ≡ for_cpu cpu self }
    {
        Insert {
            queue: queue_for(cpu, self.queue),
            slice: self.slice,
            rank: self.rank,
            preempts: self.preempts,
            refills: self.refills,
        }
    }
}

fn queue_for(cpu: u32, queue: u64) -> u64
    ensures { result ≡ queue_for cpu queue }
{
    if queue == LOCAL {
        LOCAL_ON + u64::from(cpu)
    } else {
        queue
    }
}

/// The callback at hand, and what it did.
#[derive(Clone, Copy)]
pub struct Call {
    pub callback: Callback,
    /// The task at hand.
    pub task: u16,
    /// The processor at hand, whose local queue LOCAL means, but in select_cpu.
    pub cpu: u32,
    pub insert: Option<Insert>,
    /// True if it moved a task to a local queue, or inserted one that was held.
    pub has_moved: bool,
    /// Its first fault or exit.
    pub cause: Option<Cause>,
    /// The CPUs that it claimed for tasks.
    pub claims: CpuSet,
}

/// The callback at hand as a world keeps it. Flags say which of its facts are there, so that few words are written as
/// a callback begins.
#[derive(Clone, Copy)]
pub struct KeptCall {
    pub callback: Callback,
    pub task: u16,
    pub cpu: u32,
    pub has_insert: bool,
    pub has_moved: bool,
    pub has_cause: bool,
    pub has_claims: bool,
    /// Its insert, if it has one.
    pub insert: Insert,
    /// Its first fault or exit, if it has one.
    pub cause: Cause,
    /// The CPUs that it claimed, if it claimed any.
    pub claims: CpuSet,
}

impl KeptCall {
    pub const NONE: KeptCall = KeptCall {
        callback: Callback::Plain,
        task: 0,
        cpu: 0,
        has_insert: false,
        has_moved: false,
        has_cause: false,
        has_claims: false,
        insert: Insert {
            queue: HELD,
            slice: 0,
            rank: Rank::Fifo,
            preempts: false,
            refills: false,
        },
        cause: Cause::Exit(0),
        claims: CpuSet::EMPTY,
    };

    /// A callback begins, with that task and CPU at hand.
    #[inline(always)]
    pub fn begin(&mut self, callback: Callback, task: u16, cpu: u32)
        ensures { call_of self.new
            ≡ record no_call { callback = callback; task = task; cpu = cpu } }
    {
        self.callback = callback;
        self.task = task;
        self.cpu = cpu;
        self.has_insert = false;
        self.has_moved = false;
        self.has_cause = false;
        self.has_claims = false;
    }

    /// Where it wants the task at hand to wait.
    #[inline(always)]
    pub fn insert(&self) -> Option<Insert>
        ensures { result ≡ (call_of self.now).insert }
    {
        if self.has_insert {
            Some(self.insert)
        } else {
            None
        }
    }

    /// It wants the task at hand to wait there.
    #[inline(always)]
    pub fn keep_insert(&mut self, insert: Insert)
        ensures { call_of self.new ≡ record (call_of self.old) { insert = Some insert } }
    {
        self.has_insert = true;
        self.insert = insert;
    }

    /// Its first fault or exit.
    #[inline(always)]
    pub fn cause(&self) -> Option<Cause>
        ensures { result ≡ (call_of self.now).cause }
    {
        if self.has_cause {
            Some(self.cause)
        } else {
            None
        }
    }

    /// It has that fault or exit.
    #[inline(always)]
    pub fn keep_cause(&mut self, cause: Cause)
        ensures { call_of self.new ≡ record (call_of self.old) { cause = Some cause } }
    {
        self.has_cause = true;
        self.cause = cause;
    }

    /// The CPUs that it claimed.
    #[inline(always)]
    pub fn claims(&self) -> CpuSet
        ensures { result ≡ (call_of self.now).claims }
    {
        if self.has_claims {
            self.claims
        } else {
            CpuSet::EMPTY
        }
    }

    /// It claimed one CPU more.
    #[inline(always)]
    pub fn claim(&mut self, cpu: u32)
        ensures { call_of self.new
            ≡ record (call_of self.old) { claims = and_cpu (call_of self.old).claims cpu } }
    {
        self.claims = self.claims().and(cpu);
        self.has_claims = true;
    }
}
