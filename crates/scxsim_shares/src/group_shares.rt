use crate::quotas::Allowance;

/// A group, and what is due to it.
#[derive(Clone, Copy)]
pub(crate) struct GroupShare {
    pub(crate) parent: Option<u32>,
    /// The next group with the same parent, and the first one right within it.
    pub(crate) next: Option<u32>,
    pub(crate) first: Option<u32>,
    pub(crate) weight: u32,
    /// The number of its own tasks that are runnable, and of the groups right within it that are active.
    pub(crate) active: u32,
    /// Its share of all by weight, and its weight, when shares were renewed: 0 if it wasn't active.
    pub(crate) share: u64,
    pub(crate) active_weight: u64,
    pub(crate) allowance: Option<Allowance>,
    /// The most that can be due to it now, and to the groups right within it, if there are some.
    pub(crate) room: u64,
    pub(crate) inner: Option<u64>,
    /// The amount that was due to it last under quotas, in parts of a millisecond.
    pub(crate) amount: u64,
    pub(crate) strip: Option<usize>,
}

impl GroupShare {
    /// Another of its tasks, or of the groups within it, is active, or one less. Returns whether that changes whether the
    /// group is active.
    #[inline(always)]
    pub(crate) fn change(&mut self, is_more: bool) -> bool {
        let was = self.active;
        self.active = if is_more {
            was.saturating_add(1)
        } else {
            was.saturating_sub(1)
        };
        (was == 0) != (self.active == 0)
    }

    /// The most of an amount that can be due to it by its own quota.
    pub(crate) fn own_room(&self, amount: u64) -> u64 {
        if self.active_weight == 0 {
            return 0;
        }
        match self.allowance {
            Some(allowance) => allowance.remaining.min(amount),
            None => amount,
        }
    }

    /// The amount that it takes at a level, which is an amount for each unit of weight.
    pub(crate) fn taken_at(&self, level: u64) -> u64 {
        self.active_weight.saturating_mul(level).min(self.room)
    }

    /// Its weight, if it has room for more than it takes at a level; else 0.
    pub(crate) fn open_weight(&self, level: u64) -> u64 {
        if self.taken_at(level) < self.room {
            self.active_weight
        } else {
            0
        }
    }

    /// Takes from its quota what was due to it last.
    pub(crate) fn use_allowance(&mut self) {
        let amount = self.amount;
        if let Some(allowance) = &mut self.allowance {
            allowance.take(amount);
        }
    }
}
