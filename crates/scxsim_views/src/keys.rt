ghost use Rattle.std.specs.Prelude.{◌≡◌};
ghost use Rattle.scxsim_views.specs.Keys.{rules_in_force, key_of_time};

use scx_isa_semantics::Rules;
use scx_sched_world::World;

/// The rules of the policy, while it is in force; the built-in scheduler goes by plain ones.
pub fn rules_in_force(world: &World) -> Rules
    ensures { result ≡ rules_in_force world.now }
{
    if world.is_by_linux() {
        Rules::Linux
    } else {
        Rules::Plain
    }
}

/// The number by which a queue of a policy orders a virtual time.
pub fn key_of_time(rules: Rules, time: u64) -> u64
    ensures { result ≡ key_of_time rules time }
{
    match rules {
        Rules::Plain => time,
        Rules::Linux => time.wrapping_add(1 << 63),
    }
}

/// The virtual time that a queue of a policy orders by that number.
#[tactic(auto, using(crate::proofs::Shifting::key_twice))]
pub fn time_of_key(rules: Rules, key: u64) -> u64
    ensures { key_of_time rules result ≡ key }
{
    key_of_time(rules, key)
}
