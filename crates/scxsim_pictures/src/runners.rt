use std::alloc::{AllocError, Global};

/// A task that runs, and the beginning of its run.
#[derive(Clone, Copy)]
pub(crate) struct Running {
    pub(crate) task: u16,
    pub(crate) since: u64,
}

/// The task that runs on each CPU.
#[derive(Drop)]
pub(crate) struct Runners {
    by_cpu: Vec<Option<Running>>,
}

impl Runners {
    /// All of these CPUs are idle.
    pub(crate) fn new(alloc: Global, cpus: u32) -> Result<Self, AllocError> {
        Ok(Runners {
            by_cpu: vec![in alloc; None; cpus as usize]?,
        })
    }

    /// The task runs on the CPU from that moment on.
    pub(crate) fn run(&mut self, moment: u64, task: u16, cpu: u32) {
        if let Some(running) = self.by_cpu.get_mut(cpu as usize) {
            *running = Some(Running {
                task,
                since: moment,
            });
        }
    }

    /// The CPU becomes idle. Returns the task that ran there, if one did.
    pub(crate) fn stop(&mut self, cpu: u32) -> Option<Running> {
        self.by_cpu.get_mut(cpu as usize)?.take()
    }
}
