use crate::drawing::Picture;
use scxsim_commands::Ejection;
use scxsim_layout::{Grid, Sheet, put_time};

/// The top of a legend's first line, the distance between lines, and their right end, in pixels.
const TOP: u64 = 56;

const LINE: u64 = 22;

const RIGHT: u64 = 1584;

/// The width of two letters of a legend, and of an entry without its words.
const TWO_LETTERS: u64 = 13;

const SWATCH: u64 = 58;

/// The most entries of a legend: the last ones are those of the policy's queues.
const ENTRIES: usize = 31;

/// The places in a legend of the first kind of wait, and of the first queue of the policy.
const FIRST_WAIT: usize = 9;

const FIRST_QUEUE: usize = 15;

/// The place of an entry of the legend, in pixels.
#[derive(Clone, Copy)]
pub(crate) struct Pen {
    x: u64,
    pub(crate) y: u64,
}

impl Pen {
    /// The place of the first entry.
    fn first() -> Pen {
        Pen { x: 16, y: TOP }
    }

    /// The place of an entry of that width.
    fn at(self, width: u64) -> Pen {
        if self.x.saturating_add(width) > RIGHT {
            Pen {
                x: 16,
                y: self.y.saturating_add(LINE),
            }
        } else {
            self
        }
    }

    /// The place after an entry of that width.
    fn after(self, width: u64) -> Pen {
        Pen {
            x: self.x.saturating_add(width),
            y: self.y,
        }
    }
}

/// An entry of the legend: a swatch, words, and a number after them, if any.
#[derive(Clone, Copy)]
struct Entry {
    swatch: &'static str,
    words: &'static str,
    number: Option<u64>,
}

impl Entry {
    fn new(swatch: &'static str, words: &'static str) -> Option<Entry> {
        Some(Entry {
            swatch,
            words,
            number: None,
        })
    }

    fn width(self) -> u64 {
        let number = self.number.map_or(0, digits);
        let letters = (self.words.len() as u64).saturating_add(number);
        (letters.saturating_mul(TWO_LETTERS) / 2).saturating_add(SWATCH)
    }
}

/// The number of digits of a number.
pub(crate) fn digits(number: u64) -> u64 {
    let mut rest = number;
    let mut count = 1u64;
    for _ in 0..20 {
        if rest >= 10 {
            rest /= 10;
            count = count.saturating_add(1);
        }
    }
    count
}

/// The entry, if there is such a thing in the picture.
fn entry_if(is_there: bool, swatch: &'static str, words: &'static str) -> Option<Entry> {
    if is_there {
        Entry::new(swatch, words)
    } else {
        None
    }
}

/// The swatches of the queues of a policy.
const QUEUES: [&str; 16] = [
    "<path class=\"q0\" d=\"M0 0h30v12h-30z\"/>",
    "<path class=\"q1\" d=\"M0 0h30v12h-30z\"/>",
    "<path class=\"q2\" d=\"M0 0h30v12h-30z\"/>",
    "<path class=\"q3\" d=\"M0 0h30v12h-30z\"/>",
    "<path class=\"q4\" d=\"M0 0h30v12h-30z\"/>",
    "<path class=\"q5\" d=\"M0 0h30v12h-30z\"/>",
    "<path class=\"q6\" d=\"M0 0h30v12h-30z\"/>",
    "<path class=\"q7\" d=\"M0 0h30v12h-30z\"/>",
    "<path class=\"q8\" d=\"M0 0h30v12h-30z\"/>",
    "<path class=\"q9\" d=\"M0 0h30v12h-30z\"/>",
    "<path class=\"q10\" d=\"M0 0h30v12h-30z\"/>",
    "<path class=\"q11\" d=\"M0 0h30v12h-30z\"/>",
    "<path class=\"q12\" d=\"M0 0h30v12h-30z\"/>",
    "<path class=\"q13\" d=\"M0 0h30v12h-30z\"/>",
    "<path class=\"q14\" d=\"M0 0h30v12h-30z\"/>",
    "<path class=\"q15\" d=\"M0 0h30v12h-30z\"/>",
];

impl Picture {
    /// The end of the legend, in pixels.
    pub(crate) fn legend_end(&self) -> u64 {
        let mut pen = Pen::first();
        for place in 0..ENTRIES {
            if let Some(entry) = self.entry(place) {
                pen = pen.at(entry.width()).after(entry.width());
            }
        }
        pen.y.saturating_add(LINE)
    }

    /// Draws the title, the legend, and a line on columns and folded rows.
    pub(crate) fn draw_heading(&self, sheet: &mut Sheet, title: &str) {
        self.draw_title(sheet, title);
        let mut pen = Pen::first();
        for place in 0..ENTRIES {
            if let Some(entry) = self.entry(place) {
                pen = pen.at(entry.width());
                draw_entry(sheet, entry, pen);
                pen = pen.after(entry.width());
            }
        }
        self.draw_notes(sheet);
    }

    fn draw_title(&self, sheet: &mut Sheet, title: &str) {
        sheet.put("<text x=\"16\" y=\"32\"><tspan font-size=\"20\" font-weight=\"650\">");
        sheet.put_quoted(title);
        sheet.put("</tspan><tspan dx=\"16\" font-size=\"14\" font-weight=\"600\"");
        self.put_end(sheet);
        sheet.put("</tspan><tspan dx=\"16\" font-size=\"13\" class=\"faint\">");
        self.put_counts(sheet);
        sheet.put("</tspan></text>\n");
    }

    /// Adds whether and why the policy was ejected.
    fn put_end(&self, sheet: &mut Sheet) {
        match self.gathered.ejection {
            None => sheet.put(">in force to the end"),
            Some(Ejection::Stall { moment, task }) => {
                sheet.put(" class=\"wrong\">ejected at ");
                put_time(sheet, moment);
                sheet.put(": stall of ");
                sheet.put(self.task_name(task));
            }
            Some(Ejection::Fault { moment, number }) => {
                sheet.put(" class=\"wrong\">ejected at ");
                put_time(sheet, moment);
                sheet.put_number(": fault ", u64::from(number));
            }
            Some(Ejection::Exit { moment, code }) => {
                sheet.put(" class=\"wrong\">ejected at ");
                put_time(sheet, moment);
                sheet.put_signed(": exit ", code);
            }
        }
    }

    fn put_counts(&self, sheet: &mut Sheet) {
        let scale = self.gathered.layout.scale;
        let tasks = self.workload.tasks().len() as u64;
        let ms = u64::from(self.workload.ms());
        put_count(sheet, u64::from(self.workload.cpus()), " CPU");
        sheet.put(", ");
        put_count(sheet, tasks, " task");
        sheet.put(", ");
        if scale.length() < ms {
            put_time(sheet, scale.from);
            sheet.put(" to ");
            put_time(sheet, scale.to);
            sheet.put(" of ");
        }
        put_time(sheet, ms);
    }

    /// Adds a line on columns and folded rows, below the legend.
    fn draw_notes(&self, sheet: &mut Sheet) {
        let layout = &self.gathered.layout;
        let is_whole = !layout.folding.has_area && !layout.is_folded();
        if layout.scale.step == 1 && is_whole {
            return;
        }
        let y = self.legend_end().saturating_add(12);
        sheet.put_number("<text class=\"faint\" x=\"16\" y=\"", y);
        sheet.put_number("\">A column is ", layout.scale.step);
        sheet.put(" ms: the fuller its colour, the more of it ran or waited.");
        self.put_folding(sheet);
        sheet.put("</text>\n");
    }

    /// Adds sentences on the CPUs, groups and tasks that are added up.
    fn put_folding(&self, sheet: &mut Sheet) {
        let layout = &self.gathered.layout;
        let folding = layout.folding;
        if folding.has_area {
            sheet.put(" All CPUs are one area, as high as their runs.");
        }
        if folding.tops_a_row.is_some() {
            sheet.put(" Groups are added up with those within them.");
        } else if layout.is_by_group() {
            sheet.put(" Tasks are added up by groups.");
        } else if layout.is_folded() {
            sheet.put_number(
                " Tasks are added up in groups of more than ",
                folding.most_tasks,
            );
            sheet.put(".");
        }
    }

    /// The entry in that place of the legend, if there is one.
    fn entry(&self, place: usize) -> Option<Entry> {
        if place >= FIRST_QUEUE {
            return self.queue_entry(place.saturating_sub(FIRST_QUEUE));
        }
        if place < FIRST_WAIT {
            self.entry_of_runs(place)
        } else {
            self.entry_of_waits(place.saturating_sub(FIRST_WAIT))
        }
    }

    fn entry_of_runs(&self, place: usize) -> Option<Entry> {
        let layout = &self.gathered.layout;
        match place {
            0 => Entry::new(
                "<path class=\"b0\" d=\"M0 0h14v12h-14z\"/><path class=\"b1\" d=\"M16 0h14v12h-14z\"/>",
                self.runs_words(),
            ),
            1 => self.entry_of_cpus(),
            2 => entry_if(
                !self.gathered.bars.wakes.is_empty(),
                "<path class=\"ink\" d=\"M15 2l4 8h-8z\"/>",
                "wakes",
            ),
            3 => entry_if(
                layout.strips > 0,
                "<path class=\"b3\" opacity=\".5\" d=\"M0 7h30v5h-30z\"/>\
<path class=\"qi\" d=\"M0 2h30v5h-30z\"/><path class=\"edge\" d=\"M0 1.5h30\"/>",
                "a group's share; line: what is due; hatched: what it lacks",
            ),
            4 => entry_if(
                layout.strips > 0 && self.gathered.shares.has_quotas(),
                "<path class=\"cap\" d=\"M0 6.5h30\"/>",
                "what a group's quota allows",
            ),
            5 => entry_if(
                layout.strips > 0 && self.gathered.queues.parked,
                "<path class=\"qu\" d=\"M0 2h30v8h-30z\"/>",
                "a group's lack with its quota used up",
            ),
            6 => entry_if(
                self.is_some_idle(&self.gathered.sums.waited),
                "<path class=\"qi\" d=\"M0 0h30v12h-30z\"/>",
                "idle while a task waits",
            ),
            7 => entry_if(
                self.is_some_idle(&self.gathered.sums.parked),
                "<path class=\"qu\" d=\"M0 0h30v12h-30z\"/>",
                "idle while a quota is used up",
            ),
            _ => entry_if(
                self.gathered.longest.are_some_framed(),
                "<rect class=\"frame\" stroke-width=\"1.5\" x=\"1\" y=\"1\" width=\"28\" height=\"10\"/>",
                self.frame_words(),
            ),
        }
    }

    /// The entry of the area of all CPUs, or of columns in which several tasks may run, if there are some.
    fn entry_of_cpus(&self) -> Option<Entry> {
        if self.gathered.layout.folding.has_area {
            return Entry::new(
                "<path class=\"b0\" d=\"M0 6h30v6h-30z\"/><path class=\"b1\" d=\"M0 2h30v4h-30z\"/>",
                "CPUs that ran, by group; the rest was idle",
            );
        }
        entry_if(
            self.has_several(),
            "<path class=\"several\" d=\"M0 0h30v12h-30z\"/>",
            "several of them in turn",
        )
    }

    fn entry_of_waits(&self, place: usize) -> Option<Entry> {
        let queues = &self.gathered.queues;
        match place {
            0 => entry_if(
                queues.short,
                "<path class=\"cw\" stroke-width=\"12\" d=\"M0 6h30\"/>",
                "waits, in any queue",
            ),
            1 => entry_if(
                queues.global,
                "<path class=\"qg\" d=\"M0 0h30v12h-30z\"/>",
                "waits in the global queue",
            ),
            2 => entry_if(
                queues.local,
                "<path class=\"ql\" d=\"M0 0h30v12h-30z\"/>",
                "waits in a CPU's own queue",
            ),
            3 => entry_if(
                queues.held,
                "<path class=\"qh\" d=\"M0 0h30v12h-30z\"/>",
                "held by the policy",
            ),
            4 => entry_if(
                queues.built_in,
                "<path class=\"qb\" d=\"M0 0h30v12h-30z\"/>",
                "waits for the built-in scheduler",
            ),
            _ => entry_if(
                queues.parked,
                "<path class=\"qp\" d=\"M0 0h30v12h-30z\"/>",
                "parked: quota used up",
            ),
        }
    }

    /// The words for the colours of runs.
    fn runs_words(&self) -> &'static str {
        let layout = &self.gathered.layout;
        if layout.strips > 0 && self.workload.tasks().len() > 6 {
            "runs (letter: its task; colour: its group)"
        } else {
            "runs (letter and colour: its task)"
        }
    }

    /// The words for the frames of waits.
    fn frame_words(&self) -> &'static str {
        if self.gathered.layout.scale.length() < u64::from(self.workload.ms()) {
            "a wait of at least a twentieth of the part and four times the others' mean, or of a stall"
        } else {
            "a wait of at least a twentieth of the run and four times the others' mean, or of a stall"
        }
    }

    /// True if a CPU has time in a grid of idle times.
    fn is_some_idle(&self, idle_times: &Grid) -> bool {
        let layout = &self.gathered.layout;
        let mut place = 0usize;
        for row in &layout.rows {
            if !row.is_cpu() {
                return false;
            }
            let idle = idle_times.sum_of(place, 0, layout.scale.columns);
            if 0 < idle {
                return true;
            }
            place = place.saturating_add(1);
        }
        false
    }

    /// True if CPUs have columns, in which several tasks may run.
    fn has_several(&self) -> bool {
        self.gathered.layout.scale.step > 1
    }

    fn queue_entry(&self, place: usize) -> Option<Entry> {
        let used = self.gathered.queues.policy.get(place)?;
        if !used.is_drawn {
            return None;
        }
        Some(Entry {
            swatch: QUEUES.get(place % 16)?,
            words: "waits in queue ",
            number: Some(used.id),
        })
    }
}

fn put_count(sheet: &mut Sheet, count: u64, words: &str) {
    sheet.number(count);
    sheet.put(words);
    if count != 1 {
        sheet.put("s");
    }
}

fn draw_entry(sheet: &mut Sheet, entry: Entry, pen: Pen) {
    sheet.put_number("<g transform=\"translate(", pen.x);
    sheet.put_number(" ", pen.y);
    sheet.put(")\">");
    sheet.put(entry.swatch);
    sheet.put("<text x=\"36\" y=\"10\">");
    sheet.put(entry.words);
    if let Some(number) = entry.number {
        sheet.number(number);
    }
    sheet.put("</text></g>\n");
}
