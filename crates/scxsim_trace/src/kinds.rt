//! The kinds of notes of which there are many.

ghost use Rattle.std.specs.Prelude.{◌≡◌, ℕ};
ghost use Rattle.scx_sched_world.specs.declared.notes.What.{What};
ghost use Rattle.scx_sched_world.specs.declared.notes.What.TheVariants.{Wake, Sleep, Insert, Move, Run, Stop};

use scx_sched_world::What;

/// A kind of notes of a task, some of them with a queue or a CPU.
pub(crate) trait Kind {
    type Object: Copy;

    ghost says: { ℕ → Self.Object → What };

    fn what(task: u16, object: Self::Object) -> What
        ensures { result ≡ says task object };
}

pub(crate) struct Wakes;

impl Kind for Wakes {
    type Object = ();

    ghost says = { λ t _. Wake t };

    #[inline(always)]
    fn what(task: u16, _object: ()) -> What {
        What::Wake(task)
    }
}

pub(crate) struct Sleeps;

impl Kind for Sleeps {
    type Object = ();

    ghost says = { λ t _. Sleep t };

    #[inline(always)]
    fn what(task: u16, _object: ()) -> What {
        What::Sleep(task)
    }
}

pub(crate) struct Inserts;

impl Kind for Inserts {
    type Object = u64;

    ghost says = { Insert };

    #[inline(always)]
    fn what(task: u16, queue: u64) -> What {
        What::Insert(task, queue)
    }
}

pub(crate) struct Moves;

impl Kind for Moves {
    type Object = u32;

    ghost says = { Move };

    #[inline(always)]
    fn what(task: u16, cpu: u32) -> What {
        What::Move(task, cpu)
    }
}

pub(crate) struct Starts;

impl Kind for Starts {
    type Object = u32;

    ghost says = { Run };

    #[inline(always)]
    fn what(task: u16, cpu: u32) -> What {
        What::Run(task, cpu)
    }
}

pub(crate) struct Stops;

impl Kind for Stops {
    type Object = u32;

    ghost says = { Stop };

    #[inline(always)]
    fn what(task: u16, cpu: u32) -> What {
        What::Stop(task, cpu)
    }
}
