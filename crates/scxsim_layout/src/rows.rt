use crate::groups::{largest_below, tasks_of_small_groups, tops};
use scx_load_workloads::Workload;

/// The most rows of a picture.
pub(crate) const MOST_ROWS: usize = 128;

/// The most CPUs with a row each; more are one area.
const MOST_CPUS: u32 = 32;

/// The rows that are left for groups, however many CPUs there are.
const GROUP_ROWS: usize = 96;

/// The CPUs, tasks and groups that are added up, so that a picture has few rows.
#[derive(Clone, Copy)]
pub struct Folding {
    /// True if all CPUs are one area.
    pub has_area: bool,
    /// The most tasks of a group whose tasks have rows of their own: those of larger groups are added up.
    pub most_tasks: u64,
    /// The number of groups without a parent in a row, with all within them; none if each group has a row.
    pub tops_a_row: Option<usize>,
}

impl Folding {
    /// The folding of a workload whose groups have these numbers of tasks.
    pub(crate) fn of(workload: &Workload, sizes: &[u64]) -> Folding {
        let has_area = workload.cpus() > MOST_CPUS;
        let groups = workload.groups().len();
        if groups > GROUP_ROWS {
            return Folding {
                has_area,
                most_tasks: 0,
                tops_a_row: Some(tops(workload.groups()).div_ceil(GROUP_ROWS).max(1)),
            };
        }
        let cpus = rows_of_cpus(workload.cpus(), has_area);
        let shown = if groups > 1 { groups } else { 0 };
        let room = MOST_ROWS.saturating_sub(cpus).saturating_sub(shown);
        Folding {
            has_area,
            most_tasks: most_tasks(sizes, room as u64),
            tops_a_row: None,
        }
    }

    /// True if the tasks of a group with that many are added up.
    pub(crate) fn folds(self, tasks: u64) -> bool {
        tasks > self.most_tasks
    }

    /// The most CPUs in a row.
    pub(crate) fn cpus_a_row(self) -> u32 {
        if self.has_area { u32::MAX } else { 1 }
    }

    /// The row of a CPU.
    #[inline(always)]
    pub(crate) fn cpu_row(self, cpu: usize) -> usize {
        if self.has_area { 0 } else { cpu }
    }

    /// True if a group at that depth has a row of its own, after `tops_before` groups without a parent.
    pub(crate) fn has_row(self, depth: u64, tops_before: usize) -> bool {
        match self.tops_a_row {
            None => true,
            Some(a_row) => depth == 0 && tops_before % a_row.max(1) == 0,
        }
    }

    /// True if the share of a group at that depth is shown.
    pub(crate) fn has_strip(self, depth: u64) -> bool {
        self.tops_a_row.is_none() || depth == 0
    }
}

/// The number of rows of CPUs.
fn rows_of_cpus(cpus: u32, has_area: bool) -> usize {
    if has_area { 1 } else { cpus as usize }
}

/// The most tasks of a group whose tasks have rows of their own, in that room: the largest groups are added up first.
fn most_tasks(sizes: &[u64], room: u64) -> u64 {
    let mut most = u64::MAX;
    for _ in sizes {
        if tasks_of_small_groups(sizes, most) > room {
            most = largest_below(sizes, most).saturating_sub(1);
        }
    }
    most
}

/// The CPUs, groups or task of a row.
#[derive(Clone, Copy)]
pub enum Kind {
    /// CPUs, from the first to the last.
    Cpus { first: u32, last: u32 },
    /// A group, or several without a parent.
    Groups { first: u32, last: u32 },
    Task(u16),
}

/// A horizontal band of a picture, in pixels.
#[derive(Clone, Copy)]
pub struct Band {
    pub top: u64,
    pub tall: u64,
}

impl Band {
    /// Its middle.
    pub fn middle(self) -> u64 {
        self.top.saturating_add(self.tall / 2)
    }
}

/// A row of a picture.
#[derive(Clone, Copy)]
pub struct Row {
    pub kind: Kind,
    /// The number of CPUs or tasks added up in it.
    pub members: u64,
    /// The number of groups that it lies in.
    pub depth: u64,
    /// The colour of its tasks, one of six.
    pub colour: usize,
    /// Its strip of shares, if it has one.
    pub strip: Option<usize>,
    /// Its top, in pixels below the first row's.
    pub top: u64,
    /// The heights of its strip, and of the runs and waits below that.
    pub strip_tall: u64,
    pub tall: u64,
}

/// The heights of rows in pixels: the more rows, the lower each.
#[derive(Clone, Copy)]
struct Heights {
    tall: u64,
    /// The height of a group's runs and waits, where its tasks are added up.
    group: u64,
    strip: u64,
    gap: u64,
}

impl Heights {
    fn of(rows: usize) -> Heights {
        let (tall, group, strip, gap) = if rows <= 16 {
            (30, 30, 30, 4)
        } else if rows <= 40 {
            (20, 24, 26, 4)
        } else {
            (14, 20, 24, 2)
        };
        Heights {
            tall,
            group,
            strip,
            gap,
        }
    }
}

impl Heights {
    /// The height of a row's runs and waits.
    fn of_runs(self, row: Row) -> u64 {
        if !row.has_runs() {
            0
        } else if row.is_area() {
            AREA
        } else if row.is_group() {
            self.group
        } else {
            self.tall
        }
    }
}

/// The height of the area of all CPUs.
const AREA: u64 = 124;

/// The gap above a group, and between CPUs and tasks.
const GROUP_GAP: u64 = 8;

/// Gives each row its place, and returns the height of all rows.
pub(crate) fn place(rows: &mut [Row]) -> u64 {
    let heights = Heights::of(rows.len());
    let mut top = 0u64;
    let mut is_below_cpus = false;
    for row in rows {
        if row.is_group() || !row.is_cpu() && !is_below_cpus {
            top = top.saturating_add(GROUP_GAP);
        }
        is_below_cpus = !row.is_cpu();
        row.top = top;
        row.strip_tall = if row.strip.is_some() {
            heights.strip
        } else {
            0
        };
        row.tall = heights.of_runs(*row);
        top = top
            .saturating_add(row.strip_tall)
            .saturating_add(row.tall)
            .saturating_add(heights.gap);
    }
    top
}

impl Row {
    /// The band of its runs. A row of CPUs has nothing else.
    pub fn runs(self) -> Band {
        let high = self.tall.saturating_sub(4);
        Band {
            top: self.top.saturating_add(self.strip_tall).saturating_add(2),
            tall: if self.is_cpu() {
                high
            } else {
                high.saturating_mul(6) / 10
            },
        }
    }

    /// The band of its waits, below its runs.
    pub fn waits(self) -> Band {
        let runs = self.runs();
        let high = self.tall.saturating_sub(4);
        Band {
            top: runs.top.saturating_add(runs.tall),
            tall: high.saturating_sub(runs.tall),
        }
    }

    /// The middle of its strip, or of its runs and waits: its name is written there.
    pub fn middle(self) -> u64 {
        let high = if self.strip_tall > 0 {
            self.strip_tall
        } else {
            self.tall
        };
        self.top.saturating_add(high / 2)
    }

    /// True if it shows runs and waits.
    pub fn has_runs(self) -> bool {
        self.members > 0
    }

    /// True if its runs and waits may be bars of their own.
    pub fn has_bars(self) -> bool {
        match self.kind {
            Kind::Cpus { .. } => self.members == 1,
            Kind::Groups { .. } => false,
            Kind::Task(_) => true,
        }
    }

    /// True if it shows CPUs.
    pub fn is_cpu(self) -> bool {
        match self.kind {
            Kind::Cpus { .. } => true,
            Kind::Groups { .. } | Kind::Task(_) => false,
        }
    }

    /// True if it shows several CPUs, as an area.
    pub fn is_area(self) -> bool {
        self.is_cpu() && self.members > 1
    }

    /// True if it shows groups.
    pub fn is_group(self) -> bool {
        match self.kind {
            Kind::Groups { .. } => true,
            Kind::Cpus { .. } | Kind::Task(_) => false,
        }
    }

    /// True if it shows one task.
    pub fn is_task(self) -> bool {
        match self.kind {
            Kind::Task(_) => true,
            Kind::Cpus { .. } | Kind::Groups { .. } => false,
        }
    }

    /// True if it shows the tasks of groups, added up.
    pub fn is_folded(self) -> bool {
        self.is_group() && self.has_runs()
    }
}
