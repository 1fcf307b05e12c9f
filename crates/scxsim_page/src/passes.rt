use scxsim_runs::Listener;

/// A pass over a run: the only one, or the first or the second of two.
#[derive(Clone, Copy)]
pub(crate) enum RunPass {
    Only,
    First,
    Second,
}

/// Tells a listener of a pass over a run. If there are two, each is one half of a run twice as long.
#[derive(Drop)]
pub(crate) struct PassListener<'a, L> {
    pub(crate) listener: &'a mut L,
    pub(crate) pass: RunPass,
}

impl<L: Listener> Listener for PassListener<'_, L> {
    fn hear(&mut self, over: u64, total: u32) {
        let both = total.saturating_mul(2);
        match self.pass {
            RunPass::Only => self.listener.hear(over, total),
            RunPass::First => self.listener.hear(over, both),
            RunPass::Second => self
                .listener
                .hear(u64::from(total).saturating_add(over), both),
        }
    }
}
