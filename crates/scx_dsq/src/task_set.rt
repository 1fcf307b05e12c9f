ghost use Rattle.std.specs.Prelude.{◌≡◌, ℕ, Bool};

/// Tasks by their numbers, of which a queue tells the first.
pub trait TaskSet {
    ghost has: { Self → ℕ → Bool };

    fn has(&self, task: u32) -> bool
        ensures { result ≡ has self.now task };
}
