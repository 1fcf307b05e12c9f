use crate::drawing::Picture;
use scx_load_workloads::MAX_CPUS;
use scxsim_layout::Sheet;
use scxsim_views::{bound_mask, has_cpu};

impl Picture {
    /// Adds the CPUs on which a task may run, as the title of its name, if it may not run on all.
    pub(crate) fn put_bounds(&self, sheet: &mut Sheet, task: u16) {
        let Some(mask) = bound_mask(&self.workload, task) else {
            return;
        };
        let is_one = mask.count_ones() == 1;
        sheet.put("<title>");
        sheet.put(self.task_name(task));
        sheet.put(" may run on CPU");
        let mut before = if is_one { " " } else { "s " };
        for cpu in 0..MAX_CPUS {
            let is_next = cpu > 0 && has_cpu(mask, cpu - 1);
            if has_cpu(mask, cpu) && !is_next {
                sheet.put_number(before, u64::from(cpu));
                before = ", ";
            } else if has_cpu(mask, cpu) && !has_cpu(mask, cpu.saturating_add(1)) {
                sheet.put_number(" to ", u64::from(cpu));
            }
        }
        sheet.put(if is_one { " alone</title>" } else { "</title>" });
    }
}
