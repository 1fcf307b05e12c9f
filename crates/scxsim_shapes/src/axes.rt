use crate::drawing::Picture;
use scxsim_layout::{LEFT, Scale, Sheet, put_seconds};

/// The least distance between two numbers of the axis, in hundredths of a pixel.
const APART: u64 = 9000;

/// The least end of a picture whose moments are in seconds.
const LONG: u64 = 10_000;

/// The most numbers of an axis.
const MOST: u64 = 16;

/// The milliseconds between two numbers: 1, 2 or 5 times a power of ten.
fn ms_between(scale: Scale) -> u64 {
    let mut unit = 1u64;
    for _ in 0..7 {
        for count in [1u64, 2, 5] {
            let between = unit.saturating_mul(count);
            if between.saturating_mul(scale.wide) / scale.step.max(1) >= APART {
                return between;
            }
        }
        unit = unit.saturating_mul(10);
    }
    unit
}

/// True if times are in seconds.
pub(crate) fn is_long(scale: Scale) -> bool {
    scale.to >= LONG
}

impl Picture {
    /// Draws the moments above the rows, and a line through them for each.
    pub(crate) fn draw_axis(&self, sheet: &mut Sheet) {
        let layout = &self.gathered.layout;
        let between = ms_between(layout.scale).max(1);
        let first = layout.scale.from.div_ceil(between).saturating_mul(between);
        self.draw_titles(sheet);
        for number in 0..MOST {
            let moment = first.saturating_add(number.saturating_mul(between));
            if moment < layout.scale.to {
                draw_moment(sheet, layout.scale, moment, layout.high);
            }
        }
        sheet.put_hundredths("<path class=\"line\" d=\"M", LEFT);
        sheet.put_hundredths(" -4H", layout.scale.end_x());
        sheet.put_hundredths("M", layout.scale.end_x());
        sheet.put_number(" -9V", layout.high);
        sheet.put("\"/>\n");
    }

    /// Draws the titles of the columns beside the plot.
    fn draw_titles(&self, sheet: &mut Sheet) {
        let unit = if is_long(self.gathered.layout.scale) {
            "s"
        } else {
            "ms"
        };
        sheet.put("<text class=\"faint r\" x=\"156\" y=\"-12\">");
        sheet.put(unit);
        sheet.put("</text><text class=\"faint r\" x=\"1534\" y=\"-12\">ran</text>");
        sheet.put("<text class=\"faint r\" x=\"1590\" y=\"-12\">waited</text>\n");
    }
}

fn draw_moment(sheet: &mut Sheet, scale: Scale, moment: u64, high: u64) {
    let x = scale.x(moment);
    sheet.put_hundredths("<path class=\"line\" d=\"M", x);
    sheet.put_number(" -9V", high);
    sheet.put_hundredths("\"/><text class=\"faint\" x=\"", x);
    sheet.put("\" y=\"-12\" text-anchor=\"middle\">");
    if is_long(scale) {
        put_seconds(sheet, moment);
    } else {
        sheet.number(moment);
    }
    sheet.put("</text>\n");
}
