ghost use Rattle.std.specs.Prelude.{◌<◌};
ghost use Rattle.scx_laws_template.specs.Own.{slice, TasksAreQueued, QueueIsServed, NoTaskIsLeft};

use scx_laws::no_processor_idles_beside_served_queues;

/// The theorem about the policy of these texts. The function does nothing: its contract is the law.
pub fn own_policy_serves_its_queue()
    ensures enqueue { TasksAreQueued }
    ensures slice { 0 < slice }
    ensures dispatch { QueueIsServed }
    ensures idle { NoTaskIsLeft }
{
    no_processor_idles_beside_served_queues();
}
