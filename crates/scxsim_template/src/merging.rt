ghost use Rattle.std.specs.Prelude.{◌≡◌, IfOk, None, slice_index_or};
ghost use Rattle.scxsim_template.specs.Pieces.{next_pieces, none_drawn, drawn_on, parked_last, shortest_width};

use crate::pieces::Piece;
use crate::stretches::Stretch;
use std::alloc::{AllocError, Global};
use std::marker::Model;

/// The last piece of each task, while pieces are made of stretches. Stretches that are together no longer than
/// `width` are one.
#[derive(Drop)]
pub struct Merging {
    width: u64,
    last: Vec<Option<Piece>>,
}

impl Model for Merging {
    ghost use Rattle.scxsim_template.specs.Pieces.{LastPieces};

    ghost Value = { LastPieces };

    ghost view = { λ m. record {
      width = m.width;
      last = m.last.items;
    } };
}

impl Merging {
    /// No task has a piece.
    pub fn new(alloc: Global, tasks: usize, width: u64) -> Result<Merging, AllocError>
        ensures { IfOk result (λ merging. merging ≡ none_drawn width tasks) }
    {
        Ok(Merging {
            width,
            last: vec![in alloc; None; tasks]?,
        })
    }

    /// Adds a stretch. Returns the task's piece before it, if that isn't drawn together with it.
    pub fn add(&mut self, stretch: Stretch) -> Option<Piece>
        ensures done { result ≡ (next_pieces self.old.width
            (slice_index_or self.old.last stretch.task None) stretch).0 }
        ensures last { self.new ≡ drawn_on stretch self.old }
    {
        let before = self.last_of(stretch.task);
        let (done, open) = next_pieces(self.width, before, stretch);
        if let Some(place) = self.last.get_mut(stretch.task as usize) {
            *place = Some(open);
        }
        done
    }

    /// The task was parked as its last stretch ended.
    pub fn park_last(&mut self, task: u16)
        ensures { self.new ≡ parked_last task self.old }
    {
        if let Some(piece) = self.last_of(task) {
            if let Some(place) = self.last.get_mut(task as usize) {
                *place = Some(piece.with_park());
            }
        }
    }

    /// The task's last piece.
    pub fn last_of(&self, task: u16) -> Option<Piece>
        ensures { result ≡ slice_index_or self.now.last task None }
    {
        match self.last.get(task as usize) {
            Some(piece) => *piece,
            None => None,
        }
    }
}

/// The task's piece before a stretch, if that isn't drawn together with it, and its last piece then.
fn next_pieces(width: u64, before: Option<Piece>, stretch: Stretch) -> (Option<Piece>, Piece)
    ensures { result ≡ next_pieces width before stretch }
{
    let Some(piece) = before else {
        return (None, Piece::One(stretch));
    };
    match piece.with_next(stretch, width) {
        Some(both) => (None, both),
        None => (Some(piece), Piece::One(stretch)),
    }
}

/// The shortest width with which that many tasks have at most `most` pieces in `span` milliseconds. Two pieces, one after
/// the other, are longer together, so a task has at most one piece more than twice as many as widths, with a millisecond
/// more, fit the span.
pub fn shortest_width(tasks: u64, span: u64, most: u64) -> u64
    ensures { result ≡ shortest_width tasks span most }
{
    let twice = span.saturating_mul(tasks).saturating_mul(2);
    twice / most.saturating_sub(tasks).max(1)
}
