use crate::cells::{Coat, USED_UP, WAITED};
use scx_load_workloads::Workload;
use scxsim_layout::{DARK, LIGHT, OTHERS, QUEUES, Row, Sheet};
use scxsim_shares::{Levels, Shade};
use scxsim_sums::Gathered;
use std::alloc::{AllocError, Global};

/// A picture, with the workload whose run it shows.
#[derive(Drop)]
pub struct Picture {
    pub workload: Workload,
    pub gathered: Gathered,
}

/// The distance of the first row below the legend, in pixels: the line on columns and the axis are there.
const AXIS: u64 = 58;

/// The space below the last row.
const BELOW: u64 = 16;

/// The classes of the colours of columns.
const STROKES: [&str; 6] = ["c0", "c1", "c2", "c3", "c4", "c5"];

fn stroke(colour: usize) -> &'static str {
    STROKES.get(colour).copied().unwrap_or("c6")
}

/// The text of a picture, but for its first words and its end.
///
/// # Errors
///
/// Memory ran out.
pub fn draw(alloc: Global, picture: &Picture, title: &str) -> Result<String, AllocError> {
    let columns = picture.gathered.layout.scale.columns as usize;
    let mut levels = Levels::new(alloc, columns)?;
    let mut sheet = Sheet::new(alloc);
    picture.draw_all(&mut sheet, &mut levels, title);
    drop(levels);
    sheet.text()
}

impl Picture {
    fn draw_all(&self, sheet: &mut Sheet, levels: &mut Levels, title: &str) {
        self.draw_head(sheet, title);
        self.draw_heading(sheet, title);
        let top = self.legend_end().saturating_add(AXIS);
        sheet.put_number("<g transform=\"translate(0 ", top);
        sheet.put(")\">\n");
        self.draw_ground(sheet);
        self.draw_axis(sheet);
        self.draw_names(sheet);
        self.draw_strips(sheet);
        self.draw_sums(sheet, levels);
        self.draw_bars(sheet);
        self.draw_wakes(sheet);
        self.draw_waits(sheet);
        self.draw_ejection(sheet);
        sheet.put("</g>\n");
    }

    /// Adds the size of the picture, its colours and its paper.
    fn draw_head(&self, sheet: &mut Sheet, title: &str) {
        let high = self
            .legend_end()
            .saturating_add(AXIS)
            .saturating_add(self.gathered.layout.high)
            .saturating_add(BELOW);
        sheet.put_number("width=\"1600\" height=\"", high);
        sheet.put_number("\" viewBox=\"0 0 1600 ", high);
        sheet.put(
            "\" style=\"max-width:100%;height:auto\" role=\"img\" font-family=\"system-ui, DejaVu Sans, sans-serif\" ",
        );
        sheet.put("font-size=\"12\">\n<title>");
        sheet.put_quoted(title);
        sheet.put("</title>\n");
        sheet.put(LIGHT);
        sheet.put(DARK);
        sheet.put("</style>\n");
        sheet.put(QUEUES);
        sheet.put(OTHERS);
        sheet.put_number("<path class=\"paper\" d=\"M0 0h1600v", high);
        sheet.put("h-1600z\"/>\n");
    }

    /// Draws the ground of the time after an ejection.
    fn draw_ground(&self, sheet: &mut Sheet) {
        let layout = &self.gathered.layout;
        let Some(ejection) = self.gathered.ejection else {
            return;
        };
        if ejection.moment() >= layout.scale.to {
            return;
        }
        let x = layout.scale.x(ejection.moment());
        sheet.put_hundredths("<path class=\"wrong\" opacity=\".07\" d=\"M", x);
        sheet.put_hundredths(" -4H", layout.scale.end_x());
        sheet.put_number("V", layout.high);
        sheet.put_hundredths("H", x);
        sheet.put("z\"/>\n");
    }

    /// Draws the line of an ejection, if it is in the picture, from below the numbers of the axis on.
    fn draw_ejection(&self, sheet: &mut Sheet) {
        let layout = &self.gathered.layout;
        let Some(ejection) = self.gathered.ejection else {
            return;
        };
        let moment = ejection.moment();
        if !layout.scale.has(moment) {
            return;
        }
        let x = layout.scale.x(moment);
        sheet.put_hundredths("<path class=\"frame\" stroke-width=\"2\" d=\"M", x);
        sheet.put_number(" -9V", layout.high);
        sheet.put_hundredths("\"/><text class=\"wrong h\" x=\"", x.saturating_add(500));
        sheet.put("\" y=\"-26\">ejected</text>\n");
    }

    /// Draws the columns of all rows.
    fn draw_sums(&self, sheet: &mut Sheet, levels: &mut Levels) {
        let mut place = 0usize;
        for row in &self.gathered.layout.rows {
            if row.has_runs() {
                self.draw_row(sheet, levels, place, *row);
            }
            place = place.saturating_add(1);
        }
    }

    fn draw_row(&self, sheet: &mut Sheet, levels: &mut Levels, place: usize, row: Row) {
        if row.is_area() {
            self.draw_area(sheet, row);
            return;
        }
        let step = self.gathered.layout.scale.step;
        let most = row.members.min(u64::from(self.workload.cpus()));
        let unit = step.saturating_mul(row.members);
        levels.take(&self.gathered.sums.ran, place, step.saturating_mul(most));
        let coat = Coat {
            class: "c6",
            words: " ran",
            band: row.runs(),
            shade: None,
        };
        if row.is_cpu() {
            self.draw_cpu(sheet, levels, place, coat);
            levels.take(&self.gathered.sums.parked, place, unit);
            self.draw_idle(sheet, levels, row, USED_UP);
            levels.take(&self.gathered.sums.waited, place, unit);
            self.draw_idle(sheet, levels, row, WAITED);
            return;
        }
        let class = stroke(row.colour);
        self.draw_cells(sheet, levels, place, Coat { class, ..coat });
        levels.take(&self.gathered.sums.waited, place, unit);
        let waited = Coat {
            class: "cw",
            words: " waited",
            band: row.waits(),
            shade: None,
        };
        self.draw_cells(sheet, levels, place, waited);
        levels.take(&self.gathered.sums.parked, place, unit);
        let parked = Coat {
            class: "cp",
            words: " was parked",
            ..waited
        };
        self.draw_cells(sheet, levels, place, parked);
    }

    /// Draws the columns of a CPU, in the colour of the tasks that ran, if all have one.
    fn draw_cpu(&self, sheet: &mut Sheet, levels: &Levels, place: usize, coat: Coat) {
        for colour in 0..STROKES.len() {
            let one = Coat {
                class: stroke(colour),
                shade: Some(Shade::One(colour)),
                ..coat
            };
            self.draw_cells(sheet, levels, place, one);
        }
        let several = Coat {
            shade: Some(Shade::Several),
            ..coat
        };
        self.draw_cells(sheet, levels, place, several);
    }
}
