ghost use Rattle.std.specs.Prelude.{◌≡◌};
ghost use Rattle.scx_vm.specs.Programs.{by_rules, context};

use scx_isa_semantics::{Callback, Rules};
use scx_maps::MapDefs;

/// The callback that a program is run as, the shapes of its maps and the rules of its machine. Apart from
/// them a rule of the verifier depends on the state and the instruction alone.
#[derive(Clone, Copy)]
pub struct Context {
    /// The callback that the program is run as.
    pub callback: Callback,
    /// The shapes of the maps that it is run with.
    pub defs: MapDefs,
    /// The rules of the machine that runs it.
    pub rules: Rules,
}

impl Context {
    /// A callback with maps of these shapes, by plain rules.
    pub fn new(callback: Callback, defs: MapDefs) -> Context
        ensures { result ≡ context callback defs }
    {
        Context {
            callback,
            defs,
            rules: Rules::Plain,
        }
    }

    /// Its callback and shapes, by these rules.
    pub fn by_rules(self, rules: Rules) -> Context
        ensures { result ≡ by_rules rules self }
    {
        Context { rules, ..self }
    }
}
