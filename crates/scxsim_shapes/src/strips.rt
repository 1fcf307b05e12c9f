use crate::drawing::Picture;
use crate::headings::digits;
use scxsim_layout::{Band, Kind, LEFT, Row, Sheet};
use scxsim_shares::{PARTS, Portions, Reweighed, Share, Shares};

/// The least lack of a share that is hatched: 3 %.
const LACKS: u64 = 300;

/// The least lack of a group's whole share that is marked: 5 %.
const SHORT: u64 = 500;

/// The greatest share with which strips are scaled to the shares: 60 %.
const MOST_OF_SOME: u64 = 6000;

/// The classes of colours.
const FILLS: [&str; 6] = ["b0", "b1", "b2", "b3", "b4", "b5"];

/// The class of a colour.
pub(crate) fn fill(colour: usize) -> &'static str {
    match FILLS.get(colour) {
        Some(class) => class,
        None => "several",
    }
}

/// A strip of a group's share: its band, and the share at its top.
#[derive(Clone, Copy)]
struct Strip {
    strip: usize,
    /// The group, if it is that of one.
    group: Option<u32>,
    band: Band,
    top: u64,
}

impl Strip {
    /// Adds the height of a share in the picture, to a tenth of a pixel.
    fn put_y(self, sheet: &mut Sheet, part: u64) {
        let tall = self.band.tall.saturating_mul(10);
        let high = part.min(self.top).saturating_mul(tall) / self.top.max(1);
        let y = self.base().saturating_mul(10).saturating_sub(high);
        sheet.number(y / 10);
        if y % 10 > 0 {
            sheet.put_number(".", y % 10);
        }
    }

    /// The shares of its group, from its first step on.
    fn portions(self, shares: &Shares) -> Portions {
        Portions::new(shares, self.strip, self.group)
    }

    fn base(self) -> u64 {
        self.band.top.saturating_add(self.band.tall)
    }
}

impl Picture {
    /// The share at the top of strips: all, or less if all groups have and are due less.
    fn strip_top(&self) -> u64 {
        let shares = &self.gathered.shares;
        let mut most = 0u64;
        for strip in 0..self.gathered.layout.strips {
            let share = shares.whole(strip);
            most = most.max(share.has).max(share.due);
        }
        if most > MOST_OF_SOME {
            PARTS
        } else {
            (most.saturating_mul(3) / 2).clamp(500, PARTS)
        }
    }

    /// Draws the shares of all groups over time.
    pub(crate) fn draw_strips(&self, sheet: &mut Sheet) {
        let top = self.strip_top();
        for row in &self.gathered.layout.rows {
            if let Some(strip) = row.strip {
                let band = Band {
                    top: row.top.saturating_add(2),
                    tall: row.strip_tall.saturating_sub(4),
                };
                let strip = Strip {
                    strip,
                    group: group_of(*row),
                    band,
                    top,
                };
                self.draw_strip(sheet, *row, strip);
                self.draw_changes(sheet, strip);
            }
        }
    }

    fn draw_strip(&self, sheet: &mut Sheet, row: Row, strip: Strip) {
        let shares = &self.gathered.shares;
        sheet.put("<path class=\"");
        sheet.put(fill(row.colour));
        sheet.put("\" opacity=\".45\" d=\"");
        put_outline(sheet, shares, strip, true);
        sheet.put("\"/>");
        put_lacks(sheet, shares, strip, "qi", false);
        put_lacks(sheet, shares, strip, "qu", true);
        sheet.put("<path class=\"edge\" d=\"");
        put_outline(sheet, shares, strip, false);
        sheet.put("\"/>");
        put_cap(sheet, shares, strip);
        sheet.put("\n");
        let all = shares.whole(strip.strip);
        let is_short = !all.is_used_up && all.has.saturating_add(SHORT) < all.due;
        let y = strip.band.middle().saturating_add(4);
        put_class(sheet, is_short);
        sheet.put_number(" r\" x=\"1590\" y=\"", y);
        sheet.put_number("\">", all.has.saturating_add(50) / 100);
        sheet.put_number(" of ", all.due.saturating_add(50) / 100);
        sheet.put(" %</text>\n");
    }
}

/// Begins a text in the colour of faults, or in a faint one.
fn put_class(sheet: &mut Sheet, is_wrong: bool) {
    if is_wrong {
        sheet.put("<text class=\"wrong h");
    } else {
        sheet.put("<text class=\"faint");
    }
}

/// Adds the shape of a group's share, or the line of its due share.
fn put_outline(sheet: &mut Sheet, shares: &Shares, strip: Strip, is_filled: bool) {
    let mut portions = strip.portions(shares);
    sheet.put_hundredths("M", LEFT);
    sheet.put(" ");
    if is_filled {
        sheet.number(strip.base());
    } else {
        strip.put_y(sheet, portions.at(shares, 0).due);
    }
    for step in 0..shares.scale.columns {
        let share = portions.at(shares, step);
        if let Some(change) = shares.change_within(step) {
            sheet.put_hundredths("H", change_x(shares, change));
        } else {
            sheet.put("V");
            strip.put_y(sheet, if is_filled { share.has } else { share.due });
            sheet.put_hundredths("H", step_end(shares, step));
        }
    }
    if is_filled {
        sheet.put_number("V", strip.base());
        sheet.put("z");
    }
}

/// The right side of a step. The last one ends with the window.
fn step_end(shares: &Shares, step: u64) -> u64 {
    let scale = shares.scale;
    scale.column_x(step.saturating_add(1)).min(scale.end_x())
}

/// The place of a change of weights.
fn change_x(shares: &Shares, change: u64) -> u64 {
    shares.scale.x(shares.scale.from.saturating_add(change))
}

/// Adds the line of what the quota of a strip's group allows, where that is less than the share at its top.
fn put_cap(sheet: &mut Sheet, shares: &Shares, strip: Strip) {
    let mut portions = strip.portions(shares);
    let mut line = Line::NONE;
    for step in 0..shares.scale.columns {
        let cap = portions.at(shares, step).cap.unwrap_or(strip.top);
        if cap < strip.top {
            line.push(sheet, shares, strip, step, cap);
        } else {
            line.is_open = false;
        }
    }
    if line.is_begun {
        sheet.put("\"><title>what its quota allows</title></path>");
    }
}

/// A line through a strip while it is drawn, with gaps.
#[derive(Clone, Copy)]
struct Line {
    is_begun: bool,
    /// True if it goes on from the step before.
    is_open: bool,
}

impl Line {
    const NONE: Line = Line {
        is_begun: false,
        is_open: false,
    };

    /// Adds a step, at the height of that share.
    fn push(&mut self, sheet: &mut Sheet, shares: &Shares, strip: Strip, step: u64, part: u64) {
        if !self.is_begun {
            sheet.put("<path class=\"cap\" d=\"");
        }
        if self.is_open {
            sheet.put("V");
        } else {
            sheet.put_hundredths("M", shares.scale.column_x(step));
            sheet.put(" ");
        }
        strip.put_y(sheet, part);
        sheet.put_hundredths("H", step_end(shares, step));
        self.is_begun = true;
        self.is_open = true;
    }
}

/// The width of a digit in a label, and of its other words, in hundredths of a pixel.
const DIGIT: u64 = 620;

const WORDS: u64 = 4600;

/// The height of a label, in pixels.
const LABEL: u64 = 12;

impl Picture {
    /// Draws the changes of a group's weight. Where two are so close that their labels would overlap, the first has one.
    fn draw_changes(&self, sheet: &mut Sheet, strip: Strip) {
        let shares = &self.gathered.shares;
        for change in &shares.changes {
            if Some(change.group) == strip.group {
                self.draw_change(sheet, *change, strip.band, change_x(shares, change.at));
            }
        }
        let mut end = 0u64;
        for change in &shares.changes {
            if Some(change.group) == strip.group {
                let x = change_x(shares, change.at);
                if end <= x {
                    end = draw_label(sheet, *change, strip.band, x, shares.scale.end_x());
                }
            }
        }
    }

    fn draw_change(&self, sheet: &mut Sheet, change: Reweighed, band: Band, x: u64) {
        let moment = self.gathered.shares.scale.from.saturating_add(change.at);
        sheet.put_hundredths("<path class=\"edge\" d=\"M", x);
        sheet.put_number(" ", band.top);
        sheet.put_number("v", band.tall);
        sheet.put("\"><title>");
        sheet.put(self.group_name(change.group));
        sheet.put_number(" has weight ", u64::from(change.weight));
        sheet.put_number(" from ", moment);
        sheet.put(" ms on</title></path>\n");
    }
}

/// Draws the label of a change, if it fits before that end. Returns its own end, or the place of the change.
fn draw_label(sheet: &mut Sheet, change: Reweighed, band: Band, x: u64, right: u64) -> u64 {
    let wide = digits(u64::from(change.weight))
        .saturating_mul(DIGIT)
        .saturating_add(WORDS);
    let end = x.saturating_add(wide);
    if end > right || band.tall < LABEL {
        return x;
    }
    sheet.put_hundredths("<rect class=\"paper\" x=\"", x.saturating_add(100));
    sheet.put_number("\" y=\"", band.top);
    sheet.put_hundredths("\" width=\"", wide.saturating_sub(200));
    sheet.put_number("\" height=\"", LABEL);
    sheet.put_hundredths("\"/><text class=\"s ink\" x=\"", x.saturating_add(300));
    sheet.put_number("\" y=\"", band.top.saturating_add(10));
    sheet.put_number("\">weight ", u64::from(change.weight));
    sheet.put("</text>\n");
    end
}

/// The group of a row's strip, if it is that of one.
fn group_of(row: Row) -> Option<u32> {
    match row.kind {
        Kind::Groups { first, last } if first == last => Some(first),
        Kind::Groups { .. } | Kind::Cpus { .. } | Kind::Task(_) => None,
    }
}

/// Hatches the lack of a group's share below its due share, where its quota was used up or where it wasn't.
fn put_lacks(sheet: &mut Sheet, shares: &Shares, strip: Strip, class: &str, is_used_up: bool) {
    let mut portions = strip.portions(shares);
    let mut is_begun = false;
    for step in 0..shares.scale.columns {
        let share = portions.at(shares, step);
        let is_short = share.has.saturating_add(LACKS) < share.due;
        if is_short && share.is_used_up == is_used_up {
            if !is_begun {
                sheet.put("<path class=\"");
                sheet.put(class);
                sheet.put("\" d=\"");
                is_begun = true;
            }
            put_lack(sheet, shares, strip, step, share);
        }
    }
    if is_begun {
        sheet.put("\"/>");
    }
}

fn put_lack(sheet: &mut Sheet, shares: &Shares, strip: Strip, step: u64, share: Share) {
    let x = shares.scale.column_x(step);
    sheet.put_hundredths("M", x);
    sheet.put(" ");
    strip.put_y(sheet, share.due);
    sheet.put_hundredths("H", step_end(shares, step));
    sheet.put("V");
    strip.put_y(sheet, share.has);
    sheet.put_hundredths("H", x);
    sheet.put("z");
}
