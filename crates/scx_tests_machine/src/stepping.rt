//! A caller of the libraries: it reads a policy and a workload, gives their machine the events one by one, and writes
//! which tasks run and for how long. docs/LIBRARY.md goes through it part by part.

ghost use Rattle.std.specs.Prelude.{◌≡◌, true, false};

use scx_load::{Driver, Workload, build, read_policy, read_workload};
use scx_sched::{Event, MAX_EVENTS, Note, Policy, Sim, Sink, What};
use scx_weights::Tree;
use std::alloc::Global;
use std::io;

/// Tasks take turns of two milliseconds.
const POLICY: &str = r#"name = "short_slices"
[code]
init = """
r1 = 0
call 1001
exit
"""
enqueue = """
r4 = r2
r2 = 0
r3 = 2000000
call 1002
exit
"""
dispatch = """
r1 = 0
call 1004
exit
"""
"#;

/// Two tasks that never sleep, on one CPU.
const WORKLOAD: &str = r#"cpus = 1
ms = 4
[[group]]
name = "g"
[[task]]
name = "a"
group = "g"
[[task]]
name = "b"
group = "g"
"#;

/// Counts the stops of tasks. It never fails, so it may take notes in any way.
#[derive(Drop)]
struct Stops {
    count: u64,
}

impl Sink for Stops {
    ghost takes = { λ s n t. false ≡ true → t ≡ s };

    ghost has_failed = { λ s. false };

    ghost failed_stays = { λ s t n failed takes. takes failed };

    fn take(&mut self, note: Note) {
        if let What::Stop(_, _) = note.what {
            self.count = self.count.saturating_add(1);
        }
    }

    fn failed(&self) -> bool {
        false
    }
}

/// Reads the workload, and runs it under the policy; `None` where something is refused.
pub(crate) fn run<R: AllocGlobal + Print>(rt: &R) -> Option<()> {
    let workload = read_workload(rt.alloc(), WORKLOAD).ok()?;
    let ran = run_workload(rt, &workload);
    drop(workload);
    ran
}

fn run_workload<R: AllocGlobal + Print>(rt: &R, workload: &Workload) -> Option<()> {
    let mut driver = Driver::new(rt.alloc(), workload).ok()?;
    let mut sim = machine(rt.alloc(), workload)?;
    let written = follow(rt, &mut driver, &mut sim);
    drop(sim);
    drop(driver);
    written.ok()
}

/// The machine of the policy and the workload, before the first event. All of its memory is taken here.
fn machine(alloc: Global, workload: &Workload) -> Option<Sim> {
    let tree = Tree::new(alloc, workload.groups(), workload.tasks()).ok()?;
    let policy = policy(alloc)?;
    Sim::new(alloc, policy, tree, workload.cpus()).ok()
}

/// The policy, whose programs were read and verified.
fn policy(alloc: Global) -> Option<Policy> {
    let text = read_policy(alloc, POLICY).ok()?;
    build(alloc, text).ok()
}

/// All events happen, one after another.
fn follow<R: Print>(rt: &R, driver: &mut Driver, sim: &mut Sim) -> io::Result<()> {
    let mut stops = Stops { count: 0 };
    for _ in 0..MAX_EVENTS {
        let Some(event) = driver.next(sim) else {
            break;
        };
        if sim.step(event, &mut stops).is_err() {
            break;
        }
        if event == Event::Clock {
            write_running(rt, sim)?;
        }
    }
    write_tasks(rt, sim)?;
    println!(rt; "{} events, {} stops", sim.events(), stops.count)
}

/// Writes the task that runs on each CPU.
fn write_running<R: Print>(rt: &R, sim: &Sim) -> io::Result<()> {
    let clock = sim.clock();
    for cpu in 0..sim.cpus() {
        match sim.running(cpu) {
            Some(task) => println!(rt; "{clock} ms: processor {cpu} runs task {task}")?,
            None => println!(rt; "{clock} ms: processor {cpu} is idle")?,
        }
    }
    Ok(())
}

/// Writes each task's place, run time and wait.
fn write_tasks<R: Print>(rt: &R, sim: &Sim) -> io::Result<()> {
    for task in 0..sim.tasks() {
        let (place, run_ns, wait) = (sim.place(task), sim.run_ns(task), sim.wait(task));
        println!(rt; "task {task}: {place:?}, ran {run_ns} ns, waits {wait} ms")?;
    }
    Ok(())
}
