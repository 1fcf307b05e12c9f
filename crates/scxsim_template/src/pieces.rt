ghost use Rattle.std.specs.Prelude.{◌≡◌};
ghost use Rattle.scxsim_template.specs.Pieces.{joined_of, with_next, with_park};

use crate::stretches::{End, NOTHING, Stretch, moment_of};

/// Stretches of a task, one after another, that are drawn together.
#[derive(Clone, Copy)]
pub struct Joined {
    pub task: u16,
    /// The moments with which the first one begins and the last one ends.
    pub since: u64,
    pub until: u64,
    /// The times for which the task ran, waited and was parked.
    pub ran: u64,
    pub waited: u64,
    pub parked: u64,
}

/// A piece of a task's row: a stretch, or several that are drawn together.
#[derive(Clone, Copy)]
pub enum Piece {
    One(Stretch),
    Several(Joined),
}

/// A piece of no time, in place of one that isn't there.
pub const NONE: Piece = Piece::One(NOTHING);

impl Piece {
    /// The piece with the task's next stretch, if both together are no longer than `width`.
    pub fn with_next(self, next: Stretch, width: u64) -> Option<Piece>
        ensures { result ≡ with_next width self next }
    {
        let before = self.joined();
        let after = Piece::One(next).joined();
        if width < after.until.saturating_sub(before.since) {
            return None;
        }
        Some(Piece::Several(Joined {
            task: before.task,
            since: before.since,
            until: after.until,
            ran: before.ran.saturating_add(after.ran),
            waited: before.waited.saturating_add(after.waited),
            parked: before.parked.saturating_add(after.parked),
        }))
    }

    /// The piece, drawn as several stretches are.
    fn joined(self) -> Joined
        ensures { result ≡ joined_of self }
    {
        match self {
            Piece::One(stretch) => Joined {
                task: stretch.task,
                since: moment_of(stretch.since),
                until: moment_of(stretch.until),
                ran: stretch.ran(),
                waited: stretch.waited(),
                parked: stretch.parked(),
            },
            Piece::Several(joined) => joined,
        }
    }

    /// The piece, if its task was parked as it ended.
    pub fn with_park(self) -> Piece
        ensures { result ≡ with_park self }
    {
        match self {
            Piece::One(stretch) => Piece::One(Stretch {
                end: End::Parked,
                ..stretch
            }),
            Piece::Several(joined) => Piece::Several(joined),
        }
    }
}
