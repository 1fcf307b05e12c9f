use crate::drawing::Picture;
use scxsim_layout::{Band, LEFT, Row, Scale, Sheet};
use scxsim_shares::{LEVELS, Level, Levels, Shade};

/// A kind of time in the columns of a row, and its colour and band.
#[derive(Clone, Copy)]
pub(crate) struct Coat {
    /// The class of its colour.
    pub(crate) class: &'static str,
    pub(crate) words: &'static str,
    pub(crate) band: Band,
    /// The columns that are drawn: those of this shade, or all.
    pub(crate) shade: Option<Shade>,
}

/// The number of shades, with one that is fainter than any.
const SHADES: usize = 17;

/// True for each shade that some column has, by number.
type Worn = [bool; SHADES];

fn is_worn(worn: &Worn, shade: u64) -> bool {
    worn.get(shade as usize).copied().unwrap_or(false)
}

impl Picture {
    /// Draws the columns of a row that were taken.
    pub(crate) fn draw_cells(&self, sheet: &mut Sheet, levels: &Levels, row: usize, coat: Coat) {
        if levels.is_empty() {
            return;
        }
        let worn = self.worn(levels, row, coat);
        if worn.iter().any(|is_worn| *is_worn) {
            self.draw_coat(sheet, levels, row, coat, &worn);
        }
    }

    /// The shades that the columns of a coat have.
    fn worn(&self, levels: &Levels, row: usize, coat: Coat) -> Worn {
        let mut worn = [false; SHADES];
        let mut column = 0u64;
        for level in &levels.levels {
            if let Some(shade) = level.shade() {
                if self.is_in(column, row, coat) {
                    if let Some(place) = worn.get_mut(shade as usize) {
                        *place = true;
                    }
                }
            }
            column = column.saturating_add(1);
        }
        worn
    }

    fn draw_coat(&self, sheet: &mut Sheet, levels: &Levels, row: usize, coat: Coat, worn: &Worn) {
        let scale = self.gathered.layout.scale;
        sheet.put("<g class=\"");
        sheet.put(coat.class);
        sheet.put_number("\" stroke-width=\"", coat.band.tall);
        sheet.put_hundredths("\" transform=\"translate(", LEFT);
        put_middle(sheet, coat.band);
        sheet.put_hundredths(")scale(", scale.wide);
        sheet.put_number(" 1)\" data-unit=\"", levels.unit);
        sheet.put("\"><title>");
        self.put_cells_title(sheet, levels, row, coat);
        sheet.put("</title>");
        for level in 1..LEVELS.saturating_add(1) {
            if is_worn(worn, level) || level == 1 {
                self.draw_level(sheet, levels, row, coat, level);
            }
        }
        if is_worn(worn, 0) {
            self.draw_tiny(sheet, levels, row, coat);
        }
        sheet.put("</g>\n");
    }

    fn put_cells_title(&self, sheet: &mut Sheet, levels: &Levels, row: usize, coat: Coat) {
        if let Some(row) = self.gathered.layout.row(row) {
            self.put_name(sheet, row);
        }
        sheet.put(coat.words);
        sheet.put_number(" ", levels.sum);
        sheet.put_number(" ms in columns of ", self.gathered.layout.scale.step);
        sheet.put(" ms");
    }

    /// Draws the columns of a shade, as one path.
    fn draw_level(&self, sheet: &mut Sheet, levels: &Levels, row: usize, coat: Coat, level: u64) {
        let has_rest = level == 1 && levels.rest > 0 && self.is_in(levels.last, row, coat);
        let mut path = Path::new(level);
        self.push_columns(sheet, levels, row, coat, &mut path);
        if has_rest {
            path.begin(sheet);
            sheet.put_number("M", levels.last);
            sheet.put(" 0h");
            put_part(sheet, levels.rest, levels.unit);
        }
        path.end(sheet);
    }

    /// Draws the columns that are too faint for any shade, as a thin and faint line below.
    fn draw_tiny(&self, sheet: &mut Sheet, levels: &Levels, row: usize, coat: Coat) {
        let mut path = Path::new(0);
        path.shift = (coat.band.tall / 2).saturating_sub(1);
        self.push_columns(sheet, levels, row, coat, &mut path);
        path.end(sheet);
    }

    fn push_columns(
        &self,
        sheet: &mut Sheet,
        levels: &Levels,
        row: usize,
        coat: Coat,
        path: &mut Path,
    ) {
        let mut column = 0u64;
        for level in &levels.levels {
            if level.shade() == Some(path.level) && self.is_in(column, row, coat) {
                path.push(sheet, column);
            }
            column = column.saturating_add(1);
        }
        path.flush(sheet);
    }

    /// True if a coat has that column.
    fn is_in(&self, column: u64, row: usize, coat: Coat) -> bool {
        match coat.shade {
            None => true,
            Some(wanted) => wanted.is_same(self.gathered.sums.shades.shade(row, column)),
        }
    }
}

/// A reason for which CPUs are idle.
#[derive(Clone, Copy)]
pub(crate) struct Idleness {
    /// The classes of columns in which a CPU was idle for up to a third of the time, for two, and for more.
    classes: [&'static str; 3],
    words: &'static str,
}

/// CPUs are idle while a task waits.
pub(crate) const WAITED: Idleness = Idleness {
    classes: ["qi i1", "qi i2", "qi"],
    words: " was idle while a task waited, ",
};

/// CPUs are idle while tasks are parked and none waits.
pub(crate) const USED_UP: Idleness = Idleness {
    classes: ["qu i1", "qu i2", "qu"],
    words: " was idle while a quota was used up, ",
};

impl Picture {
    /// Hatches the columns in which a CPU was idle for that reason: the longer, the darker.
    pub(crate) fn draw_idle(
        &self,
        sheet: &mut Sheet,
        levels: &Levels,
        row: Row,
        idleness: Idleness,
    ) {
        let mut third = 0u64;
        for class in idleness.classes {
            if self.draw_third(sheet, levels, row, class, third) {
                sheet.put("\"><title>");
                self.put_name(sheet, row);
                sheet.put_number(idleness.words, levels.sum);
                sheet.put(" ms in all</title></path>\n");
            }
            third = third.saturating_add(1);
        }
    }

    /// Begins the path of the columns of one third, if there are some.
    fn draw_third(
        &self,
        sheet: &mut Sheet,
        levels: &Levels,
        row: Row,
        class: &str,
        third: u64,
    ) -> bool {
        let mut strokes = Hatches::new(self.gathered.layout.scale, row.runs());
        let mut column = 0u64;
        for level in &levels.levels {
            if level.third() == Some(third) {
                strokes.push(sheet, class, column);
            }
            column = column.saturating_add(1);
        }
        strokes.flush(sheet, class);
        strokes.is_begun
    }
}

/// Hatched boxes of columns while they are drawn: columns side by side are one box.
#[derive(Clone, Copy)]
struct Hatches {
    scale: Scale,
    band: Band,
    is_begun: bool,
    first: u64,
    end: u64,
}

impl Hatches {
    fn new(scale: Scale, band: Band) -> Hatches {
        Hatches {
            scale,
            band,
            is_begun: false,
            first: 0,
            end: 0,
        }
    }

    fn push(&mut self, sheet: &mut Sheet, class: &str, column: u64) {
        if column != self.end || self.first >= self.end {
            self.flush(sheet, class);
            self.first = column;
        }
        self.end = column.saturating_add(1);
    }

    /// Draws the box at hand.
    fn flush(&mut self, sheet: &mut Sheet, class: &str) {
        if self.first >= self.end {
            return;
        }
        if !self.is_begun {
            self.is_begun = true;
            sheet.put("<path class=\"");
            sheet.put(class);
            sheet.put("\" d=\"");
        }
        let x = self.scale.column_x(self.first);
        sheet.put_hundredths("M", x);
        sheet.put_number(" ", self.band.top);
        sheet.put_hundredths("H", self.scale.column_x(self.end).min(self.scale.end_x()));
        sheet.put_number("v", self.band.tall);
        sheet.put_hundredths("H", x);
        sheet.put("z");
        self.first = self.end;
    }
}

/// Adds the middle of a band.
fn put_middle(sheet: &mut Sheet, band: Band) {
    let twice = band.top.saturating_mul(2).saturating_add(band.tall);
    sheet.put_hundredths(" ", twice.saturating_mul(50));
}

/// Adds one number as a part of another, with four digits.
fn put_part(sheet: &mut Sheet, part: u64, whole: u64) {
    let parts = part.saturating_mul(10_000) / whole.max(1);
    sheet.put_number(".", parts / 1000 % 10);
    sheet.number(parts / 100 % 10);
    sheet.number(parts / 10 % 10);
    sheet.number(parts % 10);
}

/// A path of columns of one shade while it is drawn: columns side by side are one line.
#[derive(Clone, Copy)]
struct Path {
    level: u64,
    /// Its distance below the middle.
    shift: u64,
    is_begun: bool,
    /// The end of the last line that was drawn.
    at: u64,
    /// The line at hand.
    first: u64,
    end: u64,
}

impl Path {
    fn new(level: u64) -> Path {
        Path {
            level,
            shift: 0,
            is_begun: false,
            at: 0,
            first: 0,
            end: 0,
        }
    }

    /// Begins the path, if it isn't begun.
    fn begin(&mut self, sheet: &mut Sheet) {
        if self.is_begun {
            return;
        }
        self.is_begun = true;
        if self.level == 0 {
            sheet.put_number("<path class=\"t\" opacity=\".5\" d=\"M0 ", self.shift);
        } else {
            put_opacity(sheet, self.level);
            sheet.put("\" d=\"M0 0");
        }
    }

    /// Adds a column after those that were added.
    fn push(&mut self, sheet: &mut Sheet, column: u64) {
        if column == self.end && self.first < self.end {
            self.end = column.saturating_add(1);
            return;
        }
        self.flush(sheet);
        self.first = column;
        self.end = column.saturating_add(1);
    }

    /// Draws the line at hand.
    fn flush(&mut self, sheet: &mut Sheet) {
        if self.first >= self.end {
            return;
        }
        self.begin(sheet);
        sheet.put_number("m", self.first.saturating_sub(self.at));
        sheet.put_number(" 0h", self.end.saturating_sub(self.first));
        self.at = self.end;
        self.first = self.end;
    }

    fn end(self, sheet: &mut Sheet) {
        if self.is_begun {
            sheet.put("\"/>");
        }
    }
}

/// Adds the beginning of a path of that shade.
fn put_opacity(sheet: &mut Sheet, level: u64) {
    if level >= LEVELS {
        sheet.put("<path data-level=\"16");
        return;
    }
    let percent = level.saturating_mul(88) / LEVELS;
    sheet.put_number("<path data-level=\"", level);
    let percent = percent.saturating_add(12);
    sheet.put_number("\" opacity=\".", percent / 10);
    sheet.number(percent % 10);
}
