use crate::base64_lines::Base64Lines;
use crate::queue_numbers::{QueueNumbers, local_number};
use crate::stretch_parts::part_within;
use crate::task_states::TaskStates;
use scx_sched::What;
use scx_sched_world::PARKED;
use scxsim_commands::{Ejection, Window};
use scxsim_template::{End, Merging, NOWHERE, Piece, Stretch};
use std::alloc::{AllocError, Global};

/// The stretches of a part of a run while it goes on: those that haven't ended yet, and the lines of those that have.
#[derive(Drop)]
pub(crate) struct Recording {
    window: Window,
    tasks: TaskStates,
    queues: QueueNumbers,
    /// The task that left a CPU with the last note, if it ended the last stretch. It may have been parked.
    stopped: Option<u16>,
    /// The last pieces, if stretches are drawn together.
    merging: Option<Merging>,
    /// The ejection, if the policy was ejected.
    pub(crate) ejection: Option<Ejection>,
    pub(crate) lines: Base64Lines,
}

impl Recording {
    /// All of these tasks sleep. Stretches that are together no longer than `width` are drawn together, if it is given.
    pub(crate) fn new(
        alloc: Global,
        tasks: usize,
        window: Window,
        width: Option<u64>,
    ) -> Result<Recording, AllocError> {
        let merging = match width {
            Some(width) => Some(Merging::new(alloc, tasks, width)?),
            None => None,
        };
        Ok(Recording {
            window,
            tasks: TaskStates::new(alloc, tasks)?,
            queues: QueueNumbers::new(),
            stopped: None,
            merging,
            ejection: None,
            lines: Base64Lines::new(),
        })
    }

    /// Adds the stretch that ends with this note, if one does.
    #[inline(always)]
    pub(crate) fn show(&mut self, moment: u64, clock: u64, what: What) {
        let now = moment.saturating_add(clock);
        let stopped = self.stopped;
        self.stopped = None;
        let stretch = match what {
            What::Wake(task) => {
                self.tasks.wake(now, task);
                None
            }
            What::Sleep(task) => self.tasks.sleep(now, task),
            What::Insert(task, id) => {
                if id == PARKED && stopped == Some(task) {
                    self.park_last(task);
                }
                let queue = self.queues.number(id);
                self.tasks.enter(now, task, queue)
            }
            What::Move(task, cpu) => self.tasks.enter(now, task, local_number(cpu)),
            What::Run(task, cpu) => {
                let place = cpu.min(u32::from(NOWHERE)) as u8;
                self.tasks.run(now, task, place)
            }
            What::Stop(task, _) => self.tasks.stop(now, task),
            What::Stall(_) | What::Fault(_) | What::Exit(_) => {
                self.ejection = Ejection::of(moment, what);
                None
            }
            What::Idle(_) | What::Weight(_, _) | What::TaskWeight(_, _) => None,
        };
        self.add(stretch);
    }

    /// Adds the task's last stretch, as the run of the workload ends, and its last piece.
    pub(crate) fn end_task(&mut self, moment: u64, task: u16) {
        let stretch = self.tasks.end(moment.saturating_mul(2), task);
        self.add(stretch);
        self.add_last(task);
    }

    /// Adds the task's last piece, if stretches are drawn together.
    fn add_last(&mut self, task: u16) {
        let last = match &self.merging {
            Some(merging) => merging.last_of(task),
            None => None,
        };
        if let Some(piece) = last {
            self.lines.add(piece);
        }
    }

    /// The task of the last stretch was parked.
    fn park_last(&mut self, task: u16) {
        match &mut self.merging {
            Some(merging) => merging.park_last(task),
            None => self.lines.park_last(),
        }
    }

    /// The ids of the policy's queues, in the order of their numbers.
    pub(crate) fn queue_ids(&self) -> &[u64] {
        self.queues.ids()
    }

    /// Adds the part of the stretch that lies in the window.
    #[inline(always)]
    fn add(&mut self, stretch: Option<Stretch>) {
        let Some(stretch) = stretch else { return };
        let Some(stretch) = part_within(stretch, self.window) else {
            return;
        };
        if let End::Stopped = stretch.end {
            self.stopped = Some(stretch.task);
        }
        let piece = match &mut self.merging {
            Some(merging) => merging.add(stretch),
            None => Some(Piece::One(stretch)),
        };
        if let Some(piece) = piece {
            self.lines.add(piece);
        }
    }
}
