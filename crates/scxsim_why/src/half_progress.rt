use scxsim_runs::Listener;

/// Tells a listener of one of two times through a run, each as one half of a way twice as long.
#[derive(Drop)]
pub(crate) struct HalfProgress<'a, L> {
    pub(crate) listener: &'a mut L,
    pub(crate) is_second: bool,
}

impl<L: Listener> Listener for HalfProgress<'_, L> {
    fn hear(&mut self, over: u64, total: u32) {
        let before = if self.is_second { u64::from(total) } else { 0 };
        self.listener
            .hear(before.saturating_add(over), total.saturating_mul(2));
    }
}
