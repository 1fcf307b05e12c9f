ghost use Rattle.std.specs.Prelude.{◌≡◌};
ghost use Rattle.scxsim_trace.specs.Lines.{NameLists, task_name, group_name, names_of};

use scx_load_workloads::Workload;

/// The names of tasks and groups, by their numbers. A number that names nothing has an empty name.
pub trait Names {
    ghost lists: { Self → NameLists };

    fn task(&self, number: u16) -> &str
        ensures { result.now ≡ task_name (lists self.now) number };

    fn group(&self, number: u32) -> &str
        ensures { result.now ≡ group_name (lists self.now) number };
}

impl Names for Workload {
    ghost lists = { names_of };

    #[tactic(auto, using(std::proofs::lemmas::List::get_or_past))]
    fn task(&self, number: u16) -> &str {
        self.is_whole();
        if (number as usize) < self.tasks().len() {
            self.task_name(number)
        } else {
            ""
        }
    }

    #[tactic(auto, using(std::proofs::lemmas::List::get_or_past))]
    fn group(&self, number: u32) -> &str {
        self.is_whole();
        if (number as usize) < self.groups().len() {
            self.group_name(number)
        } else {
            ""
        }
    }
}
