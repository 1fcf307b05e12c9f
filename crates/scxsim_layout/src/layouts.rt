ghost use Rattle.std.specs.Prelude.{IfOk};
ghost use Rattle.scxsim_layout.specs.Columns.{Covers};

use crate::colours::Colouring;
use crate::groups::{depth, first_task_in, next_group, sizes_of};
use crate::rows::{Folding, Kind, MOST_ROWS, Row, place};
use crate::scales::Scale;
use scx_load_workloads::Workload;
use std::alloc::{AllocError, Global};

/// The most columns of all rows together.
const MOST_CELLS: u64 = 48_000;

/// The most columns of a row.
const MOST_COLUMNS: u64 = 1300;

/// The least width of a bar, for each row of the picture and in all, in hundredths of a pixel.
const LEAST_A_ROW: u64 = 16;

const LEAST: u64 = 200;

/// The least width of a strip's step, in hundredths of a pixel.
const STEP_WIDTH: u64 = 500;

/// The most steps of all strips together.
const MOST_STEPS: u64 = 7000;

/// The row and the colour of a task.
#[derive(Clone, Copy)]
pub struct TaskPlace {
    /// Its row, or that of its group.
    pub row: usize,
    /// Its group.
    pub home: u32,
    pub colour: usize,
}

/// The layout of a picture: its rows, the row and colour of each task, and its scale of time.
#[derive(Drop)]
pub struct Layout {
    pub scale: Scale,
    pub rows: Vec<Row>,
    /// The strip that shows each group's share, if one does.
    groups: Vec<Option<usize>>,
    tasks: Vec<TaskPlace>,
    pub folding: Folding,
    pub strips: usize,
    /// The height of all rows together, in pixels.
    pub high: u64,
    /// The least milliseconds of a bar of its own.
    pub least: u64,
}

/// The least milliseconds of a bar of its own in a picture with this many rows.
fn least_of(scale: Scale, rows: u64) -> u64 {
    let width = rows.saturating_mul(LEAST_A_ROW).max(LEAST);
    width.saturating_mul(scale.step).div_ceil(scale.wide.max(1))
}

impl Layout {
    /// The layout of the picture of a run, from one moment to a later one.
    ///
    /// # Errors
    ///
    /// Memory ran out.
    pub fn new(alloc: Global, workload: &Workload, from: u64, to: u64) -> Result<Layout, AllocError>
        ensures { IfOk result (λ layout. Covers from to layout.scale) }
    {
        let mut plan = Plan::new(alloc, workload)?;
        plan.push_cpus(workload.cpus())?;
        plan.push_groups(workload)?;
        Ok(plan.layout(from, to))
    }

    /// The row of a CPU.
    #[inline(always)]
    pub fn cpu_row(&self, cpu: usize) -> usize {
        self.folding.cpu_row(cpu)
    }

    /// The row and the colour of a task, if there is such a task.
    #[inline(always)]
    pub fn task(&self, task: u16) -> Option<TaskPlace> {
        self.tasks.get(task as usize).copied()
    }

    /// The row in that place, if there is one.
    pub fn row(&self, row: usize) -> Option<Row> {
        self.rows.get(row).copied()
    }

    /// The number of columns of a strip's step.
    pub fn strip_columns(&self) -> u64 {
        let least = self.scale.columns.saturating_mul(self.strips as u64) / MOST_STEPS;
        let wide = STEP_WIDTH.div_ceil(self.scale.wide.max(1));
        wide.max(least.saturating_add(1))
    }

    /// The scale of strips, whose columns are their steps.
    pub fn strip_scale(&self) -> Scale {
        let columns = self.strip_columns();
        let scale = self.scale;
        Scale {
            step: scale.step.saturating_mul(columns),
            columns: scale.columns.div_ceil(columns.max(1)),
            wide: scale.wide.saturating_mul(columns),
            ..scale
        }
    }

    /// True if runs and waits in that row may be bars of their own.
    pub fn has_bars(&self, row: usize) -> bool {
        match self.row(row) {
            Some(row) => row.has_bars(),
            None => false,
        }
    }

    /// True if each task is added up with others of its group.
    pub fn is_by_group(&self) -> bool {
        self.is_folded() && !self.rows.iter().any(|row| row.is_task())
    }

    /// True if tasks are added up with others of their group.
    pub fn is_folded(&self) -> bool {
        self.rows.iter().any(|row| row.is_folded())
    }

    /// The strip that shows a group's share, if one does.
    pub fn strip(&self, group: u32) -> Option<usize> {
        self.groups.get(group as usize).copied()?
    }

    /// The layer of a task in the area of all CPUs: that of the strip of its group, or of the row that shows its group.
    #[inline(always)]
    pub fn layer(&self, task: TaskPlace) -> usize {
        match self.strip(task.home) {
            Some(strip) => strip,
            None => self.strip_of_row(task.row).unwrap_or(0),
        }
    }

    /// The strip of a row, if there is such a row and it has one.
    fn strip_of_row(&self, row: usize) -> Option<usize> {
        self.row(row)?.strip
    }

    /// The number of layers of tasks in the area of all CPUs.
    pub fn layers(&self) -> usize {
        self.strips.max(1)
    }
}

/// A layout while its rows are added.
#[derive(Drop)]
struct Plan {
    rows: Vec<Row>,
    groups: Vec<Option<usize>>,
    tasks: Vec<TaskPlace>,
    folding: Folding,
    colouring: Colouring,
    /// The number of each group's own tasks.
    sizes: Vec<u64>,
    /// True if there are several groups, so that shares are shown.
    has_shares: bool,
    /// The numbers of strips, of groups without a parent and of groups with tasks so far.
    strips: usize,
    tops: usize,
    leaves: usize,
}

impl Plan {
    fn new(alloc: Global, workload: &Workload) -> Result<Plan, AllocError> {
        let unknown = TaskPlace {
            row: 0,
            home: 0,
            colour: 0,
        };
        let rows = Vec::with_capacity(alloc, MOST_ROWS)?;
        let groups = vec![in alloc; None; workload.groups().len()]?;
        let tasks = vec![in alloc; unknown; workload.tasks().len()]?;
        let sizes = sizes_of(alloc, workload)?;
        Ok(Plan {
            rows,
            groups,
            tasks,
            folding: Folding::of(workload, &sizes),
            colouring: Colouring::of(workload),
            sizes,
            has_shares: workload.groups().len() > 1,
            strips: 0,
            tops: 0,
            leaves: 0,
        })
    }

    fn layout(mut self, from: u64, to: u64) -> Layout
        ensures { Covers from to result.scale }
    {
        let high = place(self.rows.as_mut_slice());
        let rows_count = (self.rows.len() as u64).max(1);
        let most = (MOST_CELLS / self.lines().max(1)).min(MOST_COLUMNS);
        let Plan {
            rows,
            groups,
            tasks,
            folding,
            strips,
            sizes,
            ..
        } = self;
        drop(sizes);
        let scale = Scale::new(from, to, most);
        Layout {
            scale,
            least: least_of(scale, rows_count),
            rows,
            groups,
            tasks,
            folding,
            strips,
            high,
        }
    }

    /// The number of rows, and of layers of an area: each of them has columns.
    fn lines(&self) -> u64 {
        let rows = self.rows.len() as u64;
        if self.folding.has_area {
            rows.saturating_add(self.strips as u64).saturating_add(2)
        } else {
            rows
        }
    }

    /// The number of a group's own tasks.
    fn size_of(&self, group: u32) -> u64 {
        self.sizes.get(group as usize).copied().unwrap_or(0)
    }

    fn push_cpus(&mut self, cpus: u32) -> Result<(), AllocError> {
        let a_row = self.folding.cpus_a_row();
        for row in 0..cpus.div_ceil(a_row.max(1)) {
            let first = row.saturating_mul(a_row);
            let last = first.saturating_add(a_row).min(cpus).saturating_sub(1);
            self.rows.push(Row {
                kind: Kind::Cpus { first, last },
                members: u64::from(last.saturating_sub(first)).saturating_add(1),
                depth: 0,
                colour: 0,
                strip: None,
                top: 0,
                strip_tall: 0,
                tall: 0,
            })?;
        }
        Ok(())
    }

    /// Adds the rows of all groups, and of their tasks.
    fn push_groups(&mut self, workload: &Workload) -> Result<(), AllocError> {
        let mut after = 0u64;
        for _ in workload.groups() {
            if let Some(next) = next_group(workload.groups(), after) {
                after = next.key;
                self.push_group(workload, next.group)?;
            }
        }
        Ok(())
    }

    fn push_group(&mut self, workload: &Workload, group: u32) -> Result<(), AllocError> {
        let depth = depth(workload.groups(), group);
        let tasks = self.size_of(group);
        let colour = self.leaves;
        if tasks > 0 {
            self.leaves = self.leaves.saturating_add(1);
        }
        if self.has_shares || self.folding.folds(tasks) {
            let first = first_task_in(workload, group).unwrap_or(colour);
            let strip = self.colouring.colour(first, colour);
            self.push_group_row(group, depth, tasks, strip)?;
        }
        self.place_group(group, depth);
        self.push_tasks(workload, group, depth, colour)
    }

    /// Adds the row of a group, whose strip has that colour, or adds the group to the last row.
    fn push_group_row(
        &mut self,
        group: u32,
        depth: u64,
        tasks: u64,
        colour: usize,
    ) -> Result<(), AllocError> {
        let members = if self.folding.folds(tasks) { tasks } else { 0 };
        if self.folding.has_row(depth, self.tops) {
            let strip = self.next_strip();
            self.rows.push(Row {
                kind: Kind::Groups {
                    first: group,
                    last: group,
                },
                members,
                depth,
                colour,
                strip,
                top: 0,
                strip_tall: 0,
                tall: 0,
            })?;
            if self.has_shares {
                self.strips = self.strips.saturating_add(1);
            }
        } else {
            self.extend(group, depth, members);
        }
        if depth == 0 {
            self.tops = self.tops.saturating_add(1);
        }
        Ok(())
    }

    /// The strip of the next group, if shares are shown.
    fn next_strip(&self) -> Option<usize> {
        if self.has_shares {
            Some(self.strips)
        } else {
            None
        }
    }

    /// Adds a group to the last row.
    fn extend(&mut self, group: u32, depth: u64, members: u64) {
        let Some(row) = self.rows.last_mut() else {
            return;
        };
        row.members = row.members.saturating_add(members);
        if depth > 0 {
            return;
        }
        if let Kind::Groups { first, .. } = row.kind {
            row.kind = Kind::Groups { first, last: group };
        }
    }

    /// Keeps the strip that shows a group's share: that of the last row that has one.
    fn place_group(&mut self, group: u32, depth: u64) {
        if !self.folding.has_strip(depth) || self.strips == 0 {
            return;
        }
        if let Some(place) = self.groups.get_mut(group as usize) {
            *place = Some(self.strips.saturating_sub(1));
        }
    }

    /// Adds the rows of a group's tasks, or keeps that its row shows them.
    fn push_tasks(
        &mut self,
        workload: &Workload,
        group: u32,
        depth: u64,
        colour: usize,
    ) -> Result<(), AllocError> {
        let mut task = 0u16;
        for home in workload.tasks() {
            if *home == group {
                self.push_task(task, group, depth, colour)?;
            }
            task = task.saturating_add(1);
        }
        Ok(())
    }

    /// Adds the row of a task of the `group`th group with tasks, or keeps that the group's row shows it.
    fn push_task(
        &mut self,
        task: u16,
        home: u32,
        depth: u64,
        group: usize,
    ) -> Result<(), AllocError> {
        let colour = self.colouring.colour(task as usize, group);
        if !self.folding.folds(self.size_of(home)) {
            self.rows.push(Row {
                kind: Kind::Task(task),
                members: 1,
                depth: depth.saturating_add(1),
                colour,
                strip: None,
                top: 0,
                strip_tall: 0,
                tall: 0,
            })?;
        }
        let row = self.rows.len().saturating_sub(1);
        if let Some(place) = self.tasks.get_mut(task as usize) {
            *place = TaskPlace { row, home, colour };
        }
        Ok(())
    }
}
