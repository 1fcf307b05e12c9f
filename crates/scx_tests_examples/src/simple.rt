//! The callbacks of scx_simple, the kernel's example of a policy, in this project's assembler. Map 0 has
//! one element of eight bytes, the virtual time of now.

use scx_isa::Callback;

/// The callbacks without select_cpu, each with its text.
pub const WITHOUT_SELECT_CPU: [(Callback, &str); 6] = [
    (Callback::Init, INIT),
    (Callback::Enable, ENABLE),
    (Callback::Enqueue, ENQUEUE),
    (Callback::Dispatch, DISPATCH),
    (Callback::Running, RUNNING),
    (Callback::Stopping, STOPPING),
];

/// Creates queue 0.
pub const INIT: &str = "r1 = 0
call 1001
exit
";

/// Gives a task the virtual time of now.
const ENABLE: &str = "r6 = r1
*(u32 *)(r10 - 4) = 0
r2 = r10
r2 += -4
r1 = map 0
call 1
if r0 == 0 goto out
r1 = *(u64 *)(r0 + 0)
*(u64 *)(r6 + 16) = r1
out:
exit
";

/// Inserts a task into queue 0, in order of arrival, with a slice of 20 ms.
const ENQUEUE: &str = "r4 = r2
r2 = 0
r3 = 20000000
call 1002
exit
";

/// Moves a task from queue 0 to the CPU's own queue.
pub const DISPATCH: &str = "r1 = 0
call 1004
exit
";

/// Brings the virtual time of now up to the task's.
const RUNNING: &str = "r6 = r1
*(u32 *)(r10 - 4) = 0
r2 = r10
r2 += -4
r1 = map 0
call 1
if r0 == 0 goto out
r1 = *(u64 *)(r0 + 0)
r2 = *(u64 *)(r6 + 16)
r3 = r1
r3 -= r2
if r3 s>= 0 goto out
*(u64 *)(r0 + 0) = r2
out:
exit
";

/// Charges a task, by its weight, for the part of its slice that it used.
const STOPPING: &str = "r2 = 20000000
r3 = *(u64 *)(r1 + 8)
r2 -= r3
r2 *= 100
r3 = *(u32 *)(r1 + 4)
r2 /= r3
r3 = *(u64 *)(r1 + 16)
r3 += r2
*(u64 *)(r1 + 16) = r3
exit
";
