ghost use Rattle.std.specs.Prelude.{◌≡◌, ◌≤◌, ◌<◌, true, [], length, take, slice_index_or, slice_set, All, IfOk, IfErr, OnOk};
ghost use Rattle.scx_sched_machine.specs.Hearing.{Hears};
ghost use Rattle.scx_sched_machine.specs.Notes.{Takes};
ghost use Rattle.scx_sched_machine.specs.declared.events.Event.{Event};
ghost use Rattle.scx_sched.specs.Sim.{refusal, answer_of, after_event, notes_of, calls_of};
ghost use Rattle.scx_load_driver.specs.Runs.{stepped_all, AreAccepted};
ghost use Rattle.scx_explore_findings.specs.Path.{IsAs, machine_of, went_back, went_on, last_of, IsRefusedBehind, SharesBeginning};

use crate::copies::copies_of;
use scx_sched::{Event, Hearer, Refused, Sim, Unseen};
use std::alloc::{AllocError, Global};
use std::marker::Model;

/// A list of events, each of them accepted, and the machine after each beginning of it.
///
/// In a contract it is the machine in which lists begin, the list, and how many events one may have.
#[derive(Drop)]
pub struct Path {
    root: Sim,
    /// At each depth less one the machine there; after the list's end machines that may be anywhere.
    sims: Vec<Sim>,
    events: Vec<Event>,
}

impl Model for Path {
    ghost use Rattle.scx_explore_findings.specs.Path.{PathState};

    ghost Value = { PathState };

    ghost use Rattle.scx_explore_findings.specs.Kept.{path_of, IsKept};

    ghost view = { path_of };

    ghost invariant = { IsKept };
}

impl Path {
    /// The list of no event, in that machine. A list may have `room` events.
    ///
    /// # Errors
    ///
    /// Memory runs out.
    #[tactic(auto, using(crate::proofs::MachineCopies::copies_fit))]
    pub fn new(alloc: Global, root: Sim, room: usize) -> Result<Path, AllocError>
        ensures { IfOk result (λ p. p ≡ record { root = root; events = []; room = room }) }
    {
        let sims = copies_of(alloc, &root, room)?;
        let events = Vec::with_capacity(alloc, room)?;
        Ok(Path { root, sims, events })
    }

    /// The most events of a list.
    pub fn room(&self) -> usize
        ensures { result ≡ self.now.room }
    {
        self.sims.len()
    }

    /// The list.
    pub fn events(&self) -> &[Event]
        ensures events { result.now ≡ self.now.events }
        ensures accepted { AreAccepted self.now.root self.now.events }
        ensures room { length self.now.events ≤ self.now.room }
    {
        self.events.as_slice()
    }

    /// The machine after the first `depth` events of the list.
    pub fn sim_at(&self, depth: usize) -> &Sim
        requires { depth ≤ length self.now.events }
        ensures { result.now ≡ stepped_all self.now.root (take depth self.now.events) }
    {
        if depth == 0 {
            return &self.root;
        }
        &self.sims[depth - 1]
    }

    /// The machine after the list.
    pub fn sim(&self) -> &Sim
        ensures { result.now ≡ machine_of self.now }
    {
        self.sim_at(self.events.len())
    }

    /// Cuts the list to its first `depth` events. A shorter list stays.
    pub fn go_back(&mut self, depth: usize)
        ensures { self.new ≡ went_back self.old depth }
    {
        self.events.truncate(depth);
    }

    /// Appends the event to the list. One that is refused changes nothing, and has no notes. Its callbacks are told to the
    /// hearer.
    pub fn go_on<H: Hearer>(&mut self, event: Event, hearer: &mut H) -> Result<(), Refused>
        requires { length self.old.events < self.old.room }
        ensures answer { result ≡ answer_of (refusal (machine_of self.old) event) }
        ensures list { self.new ≡ went_on self.old event }
        ensures notes { Takes H.takes (H.noted hearer.old)
            (notes_of (machine_of self.old) event) (H.noted hearer.new) }
        ensures calls { Hears H.hears (H.told hearer.old)
            (calls_of (machine_of self.old) event) (H.told hearer.new) }
    {
        let depth = self.events.len();
        match step_from(&self.root, self.sims.as_mut_slice(), depth, event, hearer) {
            Ok(()) => {
                self.events.push_reserved(event);
                Ok(())
            }
            Err(refused) => Err(refused),
        }
    }

    /// Comes to that list, with what it begins with in common with the list so far. Where an event of it is
    /// refused, the list ends before that one.
    pub fn go_to(&mut self, events: &[Event]) -> Result<(), Refused>
        requires { length events.now ≤ self.old.room }
        ensures root { self.new.root ≡ self.old.root }
        ensures room { self.new.room ≡ self.old.room }
        ensures list { OnOk result (self.new.events ≡ events.now) }
        ensures refused { IfErr result (IsRefusedBehind self.new events.now) }
    {
        let common = common_beginning(self.events.as_slice(), events);
        self.go_back(common);
        for depth in common..events.len() {
            if let Err(refused) = self.go_on(events[depth], &mut Unseen) {
                return Err(refused);
            }
        }
        Ok(())
    }
}

/// The last of the machines; without one the root.
fn last_of<'a>(root: &'a Sim, before: &'a [Sim]) -> &'a Sim
    ensures { result.now ≡ last_of root.now before.now }
{
    if before.is_empty() {
        return root;
    }
    &before[before.len() - 1]
}

/// The second machine becomes the first one, and has the event.
fn step_copy<H: Hearer>(
    from: &Sim,
    sim: &mut Sim,
    event: Event,
    hearer: &mut H,
) -> Result<(), Refused>
    requires { IsAs sim.old from.now }
    ensures answer { result ≡ answer_of (refusal from.now event) }
    ensures state { sim.new ≡ after_event from.now event }
    ensures notes { Takes H.takes (H.noted hearer.old) (notes_of from.now event)
        (H.noted hearer.new) }
    ensures calls { Hears H.hears (H.told hearer.old) (calls_of from.now event)
        (H.told hearer.new) }
    ensures alike { IsAs from.now sim.new }
{
    sim.copy_from(from);
    sim.step_heard(event, hearer)
}

/// The machine at that place becomes the one before it, which is the root at the first place, and has the
/// event. All others stay.
fn step_from<H: Hearer>(
    root: &Sim,
    sims: &mut [Sim],
    place: usize,
    event: Event,
    hearer: &mut H,
) -> Result<(), Refused>
    requires there { place < length sims.old }
    requires alike { All (IsAs root.now) sims.old }
    ensures answer { result ≡ answer_of
        (refusal (last_of root.now (take place sims.old)) event) }
    ensures sims { sims.new ≡ slice_set sims.old place
        (after_event (last_of root.now (take place sims.old)) event) }
    ensures notes { Takes H.takes (H.noted hearer.old)
        (notes_of (last_of root.now (take place sims.old)) event) (H.noted hearer.new) }
    ensures calls { Hears H.hears (H.told hearer.old)
        (calls_of (last_of root.now (take place sims.old)) event) (H.told hearer.new) }
    ensures alike { All (IsAs root.now) sims.new }
{
    let (before, rest) = sims.split_at_mut(place);
    step_copy(last_of(root, before), &mut rest[0], event, hearer)
}

/// True if that event is at that place of the list.
fn stands_at(events: &[Event], at: usize, event: Event) -> bool
    ensures there { result ≡ true → at < length events.now }
    ensures same { result ≡ true → (d : Event) → slice_index_or events.now at d ≡ event }
{
    at < events.len() && events[at] == event
}

/// The number of events with which both lists begin.
fn common_beginning(events: &[Event], others: &[Event]) -> usize
    ensures { SharesBeginning result events.now others.now }
{
    for at in 0..events.len() {
        if !stands_at(others, at, events[at]) {
            return at;
        }
    }
    events.len()
}
