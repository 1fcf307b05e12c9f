ghost use Rattle.std.specs.Prelude.{◌≡◌, ◌≢◌, ℕ, true, false, ◌<◌};
ghost use Rattle.std.specs.Int.Bits.{bit_or};
ghost use Rattle.scx_sched_world.specs.CpuSets.{is_in_set, and_cpu, but_cpu};

/// A set of CPUs, numbered from 0 to 63, as a kernel's cpumask.
#[derive(Clone, Copy, Debug, PartialEq, Eq)]
pub struct CpuSet(u64);

/// CPUs as they are marked under Linux rules, while the policy is in force.
#[derive(Clone, Copy)]
pub struct Marks {
    /// Those that were chosen for a task, and on which no cycle has begun since.
    pub claimed: CpuSet,
    /// Those that look for work as the event ends.
    pub kicked: CpuSet,
    /// Those on which the task that runs loses its slice then.
    pub preempted: CpuSet,
}

impl CpuSet {
    /// No CPU.
    pub const EMPTY: CpuSet = CpuSet(0);

    /// True if the CPU is in the set.
    #[inline(always)]
    #[tactic(auto, using(scx_weights::proofs::Masks::has_here, scx_weights::proofs::Masks::has_past))]
    pub fn has(self, cpu: u32) -> bool
        ensures { result ≡ is_in_set self cpu }
    {
        cpu < 64 && self.0 >> cpu & 1 == 1
    }

    /// The set and that CPU.
    #[inline(always)]
    #[tactic(auto, using(crate::proofs::Members::and_past, crate::proofs::Members::and_has, crate::proofs::Members::and_others))]
    pub fn and(self, cpu: u32) -> CpuSet
        ensures set { result ≡ and_cpu self cpu }
        ensures here { cpu < 64 → is_in_set result cpu ≡ true }
        ensures others { (c : ℕ) → c ≢ cpu → is_in_set result c ≡ is_in_set self c }
    {
        if cpu < 64 {
            CpuSet(self.0 | 1 << cpu)
        } else {
            self
        }
    }

    /// The set but for that CPU.
    #[inline(always)]
    #[tactic(auto, using(crate::proofs::Members::but_past, crate::proofs::Members::but_lacks, crate::proofs::Members::but_others, scx_weights::proofs::Masks::has_past))]
    pub fn but(self, cpu: u32) -> CpuSet
        ensures set { result ≡ but_cpu self cpu }
        ensures gone { is_in_set result cpu ≡ false }
        ensures others { (c : ℕ) → c ≢ cpu → is_in_set result c ≡ is_in_set self c }
    {
        if cpu < 64 {
            CpuSet(self.0 & !(1 << cpu))
        } else {
            self
        }
    }

    /// A bit for each CPU of the set.
    #[inline(always)]
    pub fn bits(self) -> u64
        ensures { result ≡ self.0 }
    {
        self.0
    }

    /// These CPUs too, one bit each.
    #[inline(always)]
    pub(crate) fn with_bits(self, bits: u64) -> u64
        ensures { result ≡ bit_or bits self.0 }
    {
        bits | self.0
    }
}
