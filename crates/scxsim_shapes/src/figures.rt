use crate::axes::is_long;
use crate::drawing::Picture;
use crate::names::{letters, put_letters};
use crate::strips::fill;
use scxsim_layout::{Kind, Row, Sheet, put_seconds};
use scxsim_sums::Total;

/// The classes of letters on colours.
const INKS: [&str; 6] = ["m0", "m1", "m2", "m3", "m4", "m5"];

/// The class of a letter on a colour.
pub(crate) fn ink(colour: usize) -> &'static str {
    INKS.get(colour).copied().unwrap_or("m0")
}

impl Picture {
    /// Draws names and figures beside all rows.
    pub(crate) fn draw_names(&self, sheet: &mut Sheet) {
        let mut place = 0usize;
        for row in &self.gathered.layout.rows {
            self.draw_row_name(sheet, *row);
            self.draw_figures(sheet, *row, self.gathered.sums.total(place));
            place = place.saturating_add(1);
        }
    }

    fn draw_row_name(&self, sheet: &mut Sheet, row: Row) {
        let mut x = row.depth.saturating_mul(8).saturating_add(16);
        if let Kind::Task(task) = row.kind {
            x = draw_chip(sheet, row, task, x);
        }
        sheet.put("<text class=\"ink");
        if row.is_group() {
            sheet.put(" h");
        }
        if row.tall.max(row.strip_tall) < 18 {
            sheet.put(" s");
        }
        sheet.put_number("\" x=\"", x);
        sheet.put_number("\" y=\"", row.middle().saturating_add(4));
        sheet.put("\">");
        if let Kind::Task(task) = row.kind {
            self.put_bounds(sheet, task);
        }
        self.put_name(sheet, row);
        sheet.put("</text>\n");
    }

    /// Draws the time that a row ran and waited. A CPU has its share of the time in place of a length.
    fn draw_figures(&self, sheet: &mut Sheet, row: Row, total: Total) {
        if !row.has_runs() {
            return;
        }
        let below = row.tall / 2;
        let middle = row.top.saturating_add(row.strip_tall).saturating_add(below);
        let y = middle.saturating_add(4);
        sheet.put_number("<text class=\"faint r\" x=\"1534\" y=\"", y);
        sheet.put("\">");
        if row.is_cpu() {
            let length = self.gathered.layout.scale.length();
            let could = length.saturating_mul(row.members).max(1);
            sheet.number(total.ran.saturating_mul(100) / could);
            sheet.put(" %</text>\n");
            return;
        }
        let is_long = is_long(self.gathered.layout.scale);
        put_length(sheet, total.ran, is_long);
        sheet.put_number("</text><text class=\"faint r\" x=\"1590\" y=\"", y);
        sheet.put("\">");
        put_length(sheet, total.waited, is_long);
        sheet.put("</text>\n");
    }
}

/// Adds a time in milliseconds, or in seconds, with a digit after the point if there are few.
fn put_length(sheet: &mut Sheet, ms: u64, is_long: bool) {
    if !is_long {
        sheet.number(ms);
    } else if ms < 100_000 {
        put_seconds(sheet, ms / 100 * 100);
    } else {
        sheet.number(ms / 1000);
    }
}

/// Draws the letters of a task on its colour. Returns the place where its name begins.
fn draw_chip(sheet: &mut Sheet, row: Row, task: u16, x: u64) -> u64 {
    let side = row.tall.saturating_sub(2).min(18);
    let wide = letters(task as usize)
        .saturating_mul(8)
        .saturating_add(4)
        .max(side);
    let middle = row.middle();
    sheet.put("<rect class=\"");
    sheet.put(fill(row.colour));
    sheet.put_number("\" x=\"", x);
    sheet.put_number("\" y=\"", middle.saturating_sub(side / 2));
    sheet.put_number("\" width=\"", wide);
    sheet.put_number("\" height=\"", side);
    sheet.put("\" rx=\"2\"/><text class=\"");
    sheet.put(ink(row.colour));
    sheet.put_number("\" x=\"", x.saturating_add(wide / 2));
    sheet.put_number("\" y=\"", middle.saturating_add(4));
    sheet.put("\">");
    put_letters(sheet, task as usize);
    sheet.put("</text>");
    x.saturating_add(wide).saturating_add(6)
}
