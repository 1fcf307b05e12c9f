use crate::drawing::Picture;
use crate::figures::ink;
use crate::names::{letters, put_letters};
use crate::strips::fill;
use scxsim_layout::{Band, Row, Sheet, put_time};
use scxsim_sums::{Bar, Doing, Queue, Wait};

/// The least width of a bar with a gap after it, and the width of the gap, in hundredths of a pixel.
const WIDE: u64 = 400;

const GAP: u64 = 100;

/// The least height of a bar with a letter, in pixels.
const TALL: u64 = 10;

/// The classes of waits in a policy's queues.
const QUEUES: [&str; 16] = [
    "q0", "q1", "q2", "q3", "q4", "q5", "q6", "q7", "q8", "q9", "q10", "q11", "q12", "q13", "q14",
    "q15",
];

/// The class of a wait.
fn class_of(queue: Queue) -> &'static str {
    match queue {
        Queue::Policy(place) => QUEUES.get(place % 16).copied().unwrap_or("q0"),
        Queue::Global => "qg",
        Queue::Held => "qh",
        Queue::BuiltIn => "qb",
        Queue::Local(_) => "ql",
        Queue::Parked => "qp",
    }
}

impl Picture {
    /// Draws all bars of their own, each with a title.
    pub(crate) fn draw_bars(&self, sheet: &mut Sheet) {
        for bar in &self.gathered.bars.bars {
            if let Some(row) = self.gathered.layout.row(bar.row) {
                self.draw_bar(sheet, *bar, row);
            }
        }
    }

    fn draw_bar(&self, sheet: &mut Sheet, bar: Bar, row: Row) {
        match bar.doing {
            Doing::Runs(_) => {
                self.draw_box(sheet, bar, fill(bar.colour), row.runs());
                self.draw_letters(sheet, bar, row.runs());
            }
            Doing::Waits(queue) => self.draw_box(sheet, bar, class_of(queue), row.waits()),
        }
    }

    fn draw_box(&self, sheet: &mut Sheet, bar: Bar, class: &str, band: Band) {
        let scale = self.gathered.layout.scale;
        let width = scale.width(bar.since, bar.until);
        let gap = if width >= WIDE { GAP } else { 0 };
        sheet.put("<rect class=\"");
        sheet.put(class);
        sheet.put_hundredths("\" x=\"", scale.x(bar.since));
        sheet.put_number("\" y=\"", band.top);
        sheet.put_hundredths("\" width=\"", width.saturating_sub(gap));
        sheet.put_number("\" height=\"", band.tall);
        sheet.put("\"><title>");
        sheet.put(self.task_name(bar.task));
        self.put_doing(sheet, bar.doing);
        sheet.put_number(", ", bar.since);
        sheet.put_number(" to ", bar.until);
        sheet.put(" ms</title></rect>\n");
    }

    fn put_doing(&self, sheet: &mut Sheet, doing: Doing) {
        sheet.put(" ");
        match doing {
            Doing::Runs(cpu) => sheet.put_number("ran on CPU ", u64::from(cpu)),
            Doing::Waits(queue) => self.put_queue(sheet, queue),
        }
    }

    /// Draws the letters of the task on a bar, if they fit.
    fn draw_letters(&self, sheet: &mut Sheet, bar: Bar, band: Band) {
        let scale = self.gathered.layout.scale;
        let task = bar.task as usize;
        let width = scale.width(bar.since, bar.until);
        let needs = letters(task).saturating_mul(800).saturating_add(600);
        if width < needs || band.tall < TALL {
            return;
        }
        let x = scale.x(bar.since);
        sheet.put("<text class=\"");
        sheet.put(ink(bar.colour));
        sheet.put_hundredths("\" x=\"", x.saturating_add(width / 2));
        sheet.put_number("\" y=\"", band.middle().saturating_add(4));
        sheet.put("\">");
        put_letters(sheet, task);
        sheet.put("</text>\n");
    }

    /// Draws the wakes of tasks, as one path.
    pub(crate) fn draw_wakes(&self, sheet: &mut Sheet) {
        if self.gathered.bars.wakes.is_empty() {
            return;
        }
        sheet.put("<path class=\"ink\" d=\"");
        for woken in &self.gathered.bars.wakes {
            if let Some(row) = self.gathered.layout.row(woken.row) {
                let bottom = row.top.saturating_add(row.tall).saturating_sub(5);
                sheet.put_hundredths("M", woken.x);
                sheet.put_number(" ", bottom);
                sheet.put("l3 6h-6z");
            }
        }
        sheet.put("\"><title>wakes</title></path>\n");
    }

    /// Draws a frame round each wait that is far longer than the others, and round that of a stall.
    pub(crate) fn draw_waits(&self, sheet: &mut Sheet) {
        let longest = &self.gathered.longest;
        for wait in &longest.waits {
            if longest.stands_out(*wait) {
                self.draw_wait(sheet, *wait);
            }
        }
        if let Some(wait) = longest.stalled {
            self.draw_wait(sheet, wait);
        }
    }

    /// The row of a task, if there is such a task.
    fn row_of(&self, task: u16) -> Option<Row> {
        let place = self.gathered.layout.task(task)?;
        self.gathered.layout.row(place.row)
    }

    fn draw_wait(&self, sheet: &mut Sheet, wait: Wait) {
        let Some(row) = self.row_of(wait.task) else {
            return;
        };
        let scale = self.gathered.layout.scale;
        let width = scale.width(wait.since, wait.until);
        if !row.has_bars() || width < WIDE {
            return;
        }
        let x = scale.x(wait.since);
        let band = row.waits();
        sheet.put_hundredths("<rect class=\"frame\" stroke-width=\"1.5\" x=\"", x);
        sheet.put_number("\" y=\"", band.top);
        sheet.put_hundredths("\" width=\"", width);
        sheet.put_number("\" height=\"", band.tall);
        sheet.put("\"/>\n");
        if width < 16_000 || row.tall < 20 {
            return;
        }
        sheet.put_hundredths("<text class=\"wrong h\" x=\"", x.saturating_add(500));
        sheet.put_number("\" y=\"", band.top.saturating_sub(4));
        sheet.put("\">waited ");
        if wait.is_cut {
            sheet.put("at least ");
        }
        put_time(sheet, wait.length);
        if wait.until == u64::from(self.workload.ms()) {
            sheet.put(", to the end");
        }
        sheet.put("</text>\n");
    }
}
