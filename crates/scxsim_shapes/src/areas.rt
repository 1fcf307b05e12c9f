use crate::drawing::Picture;
use crate::strips::fill;
use scxsim_layout::{Area, LEFT, Row, Sheet};

/// A layer of the area of all CPUs: those below it, and its colour or pattern.
#[derive(Clone, Copy)]
struct Layer {
    /// The number of layers below it.
    below: usize,
    class: &'static str,
    /// The lower end of what is drawn: that of the layer, or of all if it covers those below it.
    from: usize,
}

impl Picture {
    /// Draws the area of all CPUs: one layer upon the other, the highest first.
    pub(crate) fn draw_area(&self, sheet: &mut Sheet, row: Row) {
        let layers = self.gathered.layout.layers();
        let used_up = layers.saturating_add(1);
        self.draw_idle_layer(sheet, row, idle_layer(used_up, "qu"), "a quota was used up");
        self.draw_idle_layer(sheet, row, idle_layer(layers, "qi"), "a task waited");
        for below in 0..layers {
            let place = layers.saturating_sub(below).saturating_sub(1);
            self.draw_tasks_layer(sheet, row, place);
        }
    }

    /// Draws a layer of idle time, if there is some.
    fn draw_idle_layer(&self, sheet: &mut Sheet, row: Row, layer: Layer, meanwhile: &str) {
        let ms = self.ms_of_layer(layer.below);
        if ms == 0 {
            return;
        }
        self.put_layer(sheet, row, layer);
        self.put_name(sheet, row);
        sheet.put(" was idle while ");
        sheet.put(meanwhile);
        sheet.put_number(", ", ms);
        sheet.put(" ms in all</title></path>\n");
    }

    /// Draws the layer of a group's tasks, if they ran.
    fn draw_tasks_layer(&self, sheet: &mut Sheet, row: Row, place: usize) {
        let ms = self.ms_of_layer(place);
        if ms == 0 {
            return;
        }
        let group = self.row_of_strip(place);
        let layer = Layer {
            below: place,
            class: group.map_or("several", |row| fill(row.colour)),
            from: 0,
        };
        self.put_layer(sheet, row, layer);
        match group {
            Some(group) => self.put_name(sheet, group),
            None => sheet.put(self.group_name(0)),
        }
        sheet.put_number(" ran ", ms);
        sheet.put(" ms on all CPUs</title></path>\n");
    }

    /// Adds the path of a layer, up to its title.
    fn put_layer(&self, sheet: &mut Sheet, row: Row, layer: Layer) {
        let columns = self.gathered.layout.scale.columns;
        sheet.put("<path class=\"");
        sheet.put(layer.class);
        sheet.put_hundredths("\" d=\"M", LEFT);
        sheet.put_hundredths(" ", self.base_of(row));
        let top = layer.below.saturating_add(1);
        for column in 0..columns {
            self.put_column(sheet, row, top, column);
        }
        if layer.from == 0 {
            sheet.put_hundredths("V", self.base_of(row));
        } else {
            self.put_lower_side(sheet, row, layer.from);
        }
        sheet.put("z\"><title>");
    }

    /// Adds the upper side of the first layers in a column, from left to right.
    fn put_column(&self, sheet: &mut Sheet, row: Row, layers: usize, column: u64) {
        let scale = self.gathered.layout.scale;
        let end = scale.column_x(column.saturating_add(1));
        sheet.put_hundredths("V", self.y_of(row, layers, column));
        sheet.put_hundredths("H", end.min(scale.end_x()));
    }

    /// Adds the upper side of the first layers in all columns, from right to left.
    fn put_lower_side(&self, sheet: &mut Sheet, row: Row, layers: usize) {
        let scale = self.gathered.layout.scale;
        for number in 0..scale.columns {
            let column = scale.columns.saturating_sub(number).saturating_sub(1);
            sheet.put_hundredths("V", self.y_of(row, layers, column));
            sheet.put_hundredths("H", scale.column_x(column));
        }
    }

    /// The lower side of an area, in hundredths of a pixel.
    fn base_of(&self, row: Row) -> u64 {
        let band = row.runs();
        band.top.saturating_add(band.tall).saturating_mul(100)
    }

    /// The upper side of the first layers in a column: as high as all CPUs are in that time.
    fn y_of(&self, row: Row, layers: usize, column: u64) -> u64 {
        let scale = self.gathered.layout.scale;
        let area = Area {
            full: row
                .members
                .saturating_mul(scale.overlap(column, scale.from, scale.to)),
            tall: row.runs().tall.saturating_mul(100),
        };
        let high = area.height(&self.gathered.sums.area, layers, column);
        self.base_of(row).saturating_sub(high)
    }

    fn ms_of_layer(&self, layer: usize) -> u64 {
        let columns = self.gathered.layout.scale.columns;
        self.gathered.sums.area.sum_of(layer, 0, columns)
    }

    /// The row with that strip, if there is one.
    fn row_of_strip(&self, strip: usize) -> Option<Row> {
        for row in &self.gathered.layout.rows {
            if row.strip == Some(strip) {
                return Some(*row);
            }
        }
        None
    }
}

/// A layer of idle time, which has a pattern.
fn idle_layer(below: usize, class: &'static str) -> Layer {
    Layer {
        below,
        class,
        from: below,
    }
}
