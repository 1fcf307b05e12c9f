use crate::drawing::Picture;
use scxsim_layout::{Kind, Row, Sheet};
use scxsim_sums::Queue;

/// The letters of the first tasks; those of the others are two and three.
const LETTERS: &[u8; 26] = b"ABCDEFGHIJKLMNOPQRSTUVWXYZ";

/// The number of a task's letters.
pub(crate) fn letters(task: usize) -> u64 {
    if task < 26 {
        1
    } else if task < 702 {
        2
    } else {
        3
    }
}

/// Adds the letters of a task: A to Z, and then AA, AB and so on.
pub(crate) fn put_letters(sheet: &mut Sheet, task: usize) {
    if task >= 702 {
        put_letter(sheet, (task / 26).saturating_sub(27) / 26);
    }
    if task >= 26 {
        put_letter(sheet, (task / 26).saturating_sub(1) % 26);
    }
    put_letter(sheet, task % 26);
}

fn put_letter(sheet: &mut Sheet, place: usize) {
    if let Some(letter) = LETTERS.get(place) {
        sheet.push(char::from(*letter));
    }
}

impl Picture {
    /// The name of a task, if there is such a task.
    pub(crate) fn task_name(&self, task: u16) -> &str {
        self.workload.is_whole();
        if (task as usize) < self.workload.tasks().len() {
            self.workload.task_name(task)
        } else {
            ""
        }
    }

    /// The name of a group, if there is such a group.
    pub(crate) fn group_name(&self, group: u32) -> &str {
        self.workload.is_whole();
        if (group as usize) < self.workload.groups().len() {
            self.workload.group_name(group)
        } else {
            ""
        }
    }

    /// Adds the name of a row.
    pub(crate) fn put_name(&self, sheet: &mut Sheet, row: Row) {
        match row.kind {
            Kind::Cpus { first, last } => {
                sheet.put_number("CPU ", u64::from(first));
                if first < last {
                    sheet.put_number(" to ", u64::from(last));
                }
            }
            Kind::Groups { first, last } => {
                sheet.put(self.group_name(first));
                if first != last {
                    sheet.put(" to ");
                    sheet.put(self.group_name(last));
                }
            }
            Kind::Task(task) => sheet.put(self.task_name(task)),
        }
    }

    /// Adds the queue in which a task waited.
    pub(crate) fn put_queue(&self, sheet: &mut Sheet, queue: Queue) {
        match queue {
            Queue::Policy(place) => {
                let id = self.gathered.queues.id(place);
                sheet.put_number("waited in queue ", id);
            }
            Queue::Global => sheet.put("waited in the global queue"),
            Queue::Held => sheet.put("was held"),
            Queue::BuiltIn => sheet.put("waited for the built-in scheduler"),
            Queue::Local(cpu) => sheet.put_number("waited in the queue of CPU ", cpu),
            Queue::Parked => sheet.put("was parked"),
        }
    }
}
