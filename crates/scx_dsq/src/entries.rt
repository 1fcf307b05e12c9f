ghost use Rattle.std.specs.Prelude.{◌≡◌, int_lt};
ghost use Rattle.scx_dsq.specs.Entries.{key_of, turn, is_before};

/// A task's rank in a queue: at its end, at its front, or by a virtual time.
#[derive(Clone, Copy, PartialEq, Eq)]
pub enum Rank {
    Fifo,
    Front,
    Vtime(u64),
}

/// Where a task waits: in which queue, by which rank, and how many pushes were accepted before it.
#[derive(Clone, Copy)]
pub struct Entry {
    pub queue: u64,
    pub rank: Rank,
    pub stamp: u64,
}

impl Rank {
    /// The number by which a queue is ordered; 0 in order of arrival.
    #[inline(always)]
    pub fn key(self) -> u64
        ensures { result ≡ key_of self }
    {
        match self {
            Rank::Fifo | Rank::Front => 0,
            Rank::Vtime(key) => key,
        }
    }
}

impl Entry {
    /// True if its task leaves before that of another entry of the same queue.
    pub fn is_before(self, other: Entry) -> bool
        ensures { result ≡ is_before self other }
    {
        let (key, other_key) = (self.rank.key(), other.rank.key());
        key < other_key || key == other_key && self.has_turn_before(other)
    }

    fn has_turn_before(self, other: Entry) -> bool
        ensures { result ≡ int_lt (turn self) (turn other) }
    {
        match (self.rank, other.rank) {
            (Rank::Front, Rank::Front) => other.stamp < self.stamp,
            (Rank::Front, _) => true,
            (_, Rank::Front) => false,
            _ => self.stamp < other.stamp,
        }
    }
}
