ghost use Rattle.std.specs.Prelude.{◌≡◌, ◌^◌, ◌<◌};
ghost use Rattle.scx_sched_world.specs.World.{with_random};
ghost use Rattle.scx_sched_world.specs.Helpers.{next_random, random_answer, after_random};

use crate::world::World;

/// Random numbers.
impl World {
    /// Random numbers begin anew, from that seed.
    pub fn set_seed(&mut self, seed: u64)
        ensures world { self.new ≡ with_random self.old seed }
        ensures few { self.new.queues.pushes ≡ self.old.queues.pushes }
    {
        self.random = seed;
    }

    /// The number from which the next random one is made.
    pub fn random(&self) -> u64
        ensures { result ≡ self.now.random }
    {
        self.random
    }

    /// Makes a random number of 32 bits.
    pub(crate) fn next_random(&mut self) -> u32
        ensures answer { result ≡ random_answer self.old }
        ensures world { self.new ≡ after_random self.old }
        ensures few { self.new.queues.pushes ≡ self.old.queues.pushes }
    {
        self.random = next_random(self.random);
        (self.random >> 32) as u32
    }
}

/// The number that follows in a linear congruential sequence.
#[tactic(auto, using(crate::proofs::Randoms::cut_before))]
fn next_random(number: u64) -> u64
    ensures { result ≡ next_random number }
{
    number
        .wrapping_mul(6_364_136_223_846_793_005)
        .wrapping_add(1_442_695_040_888_963_407)
}
