ghost use Rattle.std.specs.Prelude.{◌≡◌};
ghost use Rattle.scx_abs_ranges.specs.Steps.{shift_of, step_of};

/// The distance from a member of a range to the next one.
#[derive(Clone, Copy, PartialEq, Eq)]
pub(crate) enum Step {
    One,
    Two,
    Four,
    Eight,
}

impl Step {
    /// The step of that power of two.
    pub(crate) fn of(shift: u8) -> Step
        ensures { result ≡ step_of shift }
    {
        match shift {
            0 => Step::One,
            1 => Step::Two,
            2 => Step::Four,
            _ => Step::Eight,
        }
    }

    /// The power of two.
    pub(crate) fn shift(self) -> u8
        ensures { result ≡ shift_of self }
    {
        match self {
            Step::One => 0,
            Step::Two => 1,
            Step::Four => 2,
            Step::Eight => 3,
        }
    }
}
