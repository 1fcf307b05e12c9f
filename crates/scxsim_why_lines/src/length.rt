use scx_load_workloads::Workload;

/// The most CPUs that a short page tells of one by one.
const FEW_CPUS: u32 = 8;

/// The length of a page.
#[derive(Clone, Copy, PartialEq, Eq)]
pub enum Length {
    /// At most 60 lines.
    Short,
    /// All lines.
    Whole,
}

impl Length {
    /// True if the page tells of CPUs that did alike together.
    pub fn joins_cpus(self, workload: &Workload) -> bool {
        self == Length::Short && FEW_CPUS < workload.cpus()
    }
}
