ghost use Rattle.scxsim_layout.specs.Columns.{Covers};

/// The left side of the plot, and its greatest width, in hundredths of a pixel.
pub const LEFT: u64 = 18_000;

pub const PLOT: u64 = 130_000;

/// A scale of time: columns of equally many whole milliseconds, of which the last one may have fewer. Widths are in
/// hundredths of a pixel.
#[derive(Clone, Copy)]
pub struct Scale {
    pub from: u64,
    pub to: u64,
    /// The milliseconds of a column, at least 1.
    pub step: u64,
    /// The number of columns, at least 1.
    pub columns: u64,
    /// The width of a column.
    pub wide: u64,
}

impl Scale {
    /// The scale of a part of a run, with at most this many columns.
    pub(crate) fn new(from: u64, to: u64, most: u64) -> Scale
        ensures { Covers from to result }
    {
        let length = to.saturating_sub(from).max(1);
        let step = length.div_ceil(most.max(1)).max(1);
        let columns = length.div_ceil(step);
        Scale {
            from,
            to,
            step,
            columns,
            wide: PLOT / columns.max(1),
        }
    }

    /// The milliseconds of the window.
    pub fn length(self) -> u64 {
        self.to.saturating_sub(self.from).max(1)
    }

    /// The milliseconds of the window before a moment.
    pub fn before(self, moment: u64) -> u64 {
        moment.min(self.to).saturating_sub(self.from)
    }

    /// The milliseconds between two moments that lie in the window.
    pub fn within(self, since: u64, until: u64) -> u64 {
        self.before(until).saturating_sub(self.before(since))
    }

    /// The place of a moment.
    pub fn x(self, moment: u64) -> u64 {
        let wide = self.before(moment).saturating_mul(self.wide);
        LEFT.saturating_add(wide / self.step.max(1))
    }

    /// The left side of a column.
    pub fn column_x(self, column: u64) -> u64 {
        LEFT.saturating_add(column.saturating_mul(self.wide))
    }

    /// The width of the time between two moments.
    pub fn width(self, since: u64, until: u64) -> u64 {
        self.x(until).saturating_sub(self.x(since))
    }

    /// A moment with its column: the last one, if it comes after all.
    pub fn mark(self, moment: u64) -> Mark {
        let column = self.before(moment) / self.step.max(1);
        Mark {
            moment,
            column: column.min(self.columns.saturating_sub(1)),
        }
    }

    /// The milliseconds between two moments that lie in a column.
    pub fn overlap(self, column: u64, since: u64, until: u64) -> u64 {
        let begin = column.saturating_mul(self.step);
        let end = begin.saturating_add(self.step);
        let until = self.before(until).min(end);
        until.saturating_sub(self.before(since).max(begin))
    }

    /// True if the moment lies in the window.
    pub fn has(self, moment: u64) -> bool {
        self.from <= moment && moment < self.to
    }

    /// The right side of the window.
    pub fn end_x(self) -> u64 {
        self.x(self.to)
    }
}

/// A moment, and the column in which it lies.
#[derive(Clone, Copy)]
pub struct Mark {
    pub moment: u64,
    pub column: u64,
}

/// The moment that a run has come to, with its column.
#[derive(Clone, Copy)]
pub struct Now {
    pub mark: Mark,
    /// The milliseconds before the end of its column; the last column doesn't end.
    end: u64,
}

impl Now {
    /// The beginning of a run.
    pub fn first(scale: Scale) -> Now {
        Now {
            mark: scale.mark(0),
            end: scale.step,
        }
    }

    /// Time passes up to that moment, which isn't an earlier one.
    #[inline(always)]
    pub fn pass(&mut self, scale: Scale, moment: u64) {
        self.mark.moment = moment;
        if scale.before(moment) >= self.end {
            self.turn(scale);
        }
    }

    /// Goes to the column of the moment.
    fn turn(&mut self, scale: Scale) {
        self.mark = scale.mark(self.mark.moment);
        let next = self.mark.column.saturating_add(1);
        self.end = if next < scale.columns {
            next.saturating_mul(scale.step)
        } else {
            u64::MAX
        };
    }
}
