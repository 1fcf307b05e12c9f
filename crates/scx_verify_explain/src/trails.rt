use crate::listing::{Arrival, Listing, Way};
use crate::origins::{Brought, Origin, Source, Subject, known_of, source_of};
use scx_abs::Kind;
use scx_isa::Register;
use std::alloc::{AllocError, Global};

/// A part of a way on which control only went on to the next instruction.
#[derive(Clone, Copy)]
pub struct Leg {
    /// The slot at which it begins.
    pub first: usize,
    /// The slot at which it ends, and from which control jumped where another leg follows.
    pub last: usize,
}

/// One way by which control came to a slot, backwards.
#[derive(Drop)]
pub struct Trail {
    /// The last one first.
    pub legs: Vec<Leg>,
    /// Where the value comes from that was looked for, if one was.
    pub origin: Option<Origin>,
    /// True if it was copied since.
    pub is_copied: bool,
}

/// The arrivals that are looked for.
#[derive(Clone, Copy)]
enum Wanted {
    Any,
    /// Those that bring that kind of the subject.
    With(Subject, Kind),
    /// Those that bring another.
    Without(Subject, Kind),
}

impl Wanted {
    /// True if the arrival is one of them.
    fn is(&self, arrival: &Arrival) -> bool {
        match self {
            Wanted::Any => true,
            Wanted::With(subject, kind) => known_of(&arrival.state, *subject) == *kind,
            Wanted::Without(subject, kind) => known_of(&arrival.state, *subject) != *kind,
        }
    }
}

/// Goes back from a slot to the first one. Where a value is looked for, the way is one that brought what
/// is known of it.
///
/// # Errors
///
/// Memory ran out.
pub(crate) fn trail_of(
    alloc: Global,
    listing: &Listing,
    slot: usize,
    subject: Option<Subject>,
) -> Result<Trail, AllocError> {
    let mut tracker = Tracker::new(alloc, slot, subject)?;
    for _ in 0..slot {
        let Some(arrival) = tracker.choose(listing) else {
            break;
        };
        tracker.follow(listing, &arrival)?;
    }
    Ok(tracker.end(listing))
}

/// The place that the way back has come to.
#[derive(Drop)]
struct Tracker {
    slot: usize,
    /// The value that is still looked for.
    subject: Option<Subject>,
    trail: Trail,
}

impl Tracker {
    fn new(alloc: Global, slot: usize, subject: Option<Subject>) -> Result<Tracker, AllocError> {
        let mut legs = Vec::new(alloc);
        legs.push(Leg {
            first: slot,
            last: slot,
        })?;
        Ok(Tracker {
            slot,
            subject,
            trail: Trail {
                legs,
                origin: None,
                is_copied: false,
            },
        })
    }

    /// The arrival to go back by. Where none brought what is known of the subject, the ways brought
    /// different kinds, and that is where it comes from.
    fn choose(&mut self, listing: &Listing) -> Option<Arrival> {
        let nearest = last_arrival(listing, self.slot, &Wanted::Any)?;
        let (Some(subject), Some(state)) = (self.subject, listing.state(self.slot)) else {
            return Some(nearest);
        };
        let same = Wanted::With(subject, known_of(state, subject));
        match last_arrival(listing, self.slot, &same) {
            Some(arrival) => Some(arrival),
            None => {
                self.subject = None;
                self.trail.origin = Some(meeting(listing, self.slot, subject, &nearest));
                Some(nearest)
            }
        }
    }

    /// Goes back to where control came from.
    fn follow(&mut self, listing: &Listing, arrival: &Arrival) -> Result<(), AllocError> {
        if let Some(subject) = self.subject {
            match source_of(listing, arrival, subject) {
                Source::Same => (),
                Source::Copied(source) => {
                    self.subject = Some(source);
                    self.trail.is_copied = true;
                }
                Source::Begins(origin) => {
                    self.subject = None;
                    self.trail.origin = Some(origin);
                }
            }
        }
        self.slot = arrival.from;
        self.lengthen(arrival)
    }

    /// Takes the slot from which control came into the way.
    fn lengthen(&mut self, arrival: &Arrival) -> Result<(), AllocError> {
        let from = arrival.from;
        if arrival.way == Way::On
            && let Some(leg) = self.trail.legs.last_mut()
        {
            leg.first = from;
            return Ok(());
        }
        self.trail.legs.push(Leg {
            first: from,
            last: from,
        })?;
        Ok(())
    }

    /// The way, which has come to the first slot.
    fn end(self, listing: &Listing) -> Trail {
        let mut trail = self.trail;
        if let (Some(subject), Some(state)) = (self.subject, listing.state(self.slot)) {
            trail.origin = Some(first_origin(subject, known_of(state, subject)));
        }
        trail
    }
}

/// Where a value comes from that is there as the callback begins, or isn't.
fn first_origin(subject: Subject, kind: Kind) -> Origin {
    match (subject, kind) {
        (_, Kind::Unusable) => Origin::Nowhere,
        (Subject::Register(Register::R10), _) => Origin::Frame,
        _ => Origin::Argument,
    }
}

/// The last arrival at the slot that is looked for.
fn last_arrival(listing: &Listing, slot: usize, wanted: &Wanted) -> Option<Arrival> {
    for from in (0..slot).rev() {
        let arrival = arrival_from(listing, from, slot, wanted);
        if arrival.is_some() {
            return arrival;
        }
    }
    None
}

/// The arrival at the slot from one instruction that is looked for. A jump to the next instruction sends
/// both of its sides there.
fn arrival_from(listing: &Listing, from: usize, slot: usize, wanted: &Wanted) -> Option<Arrival> {
    for way in [Way::On, Way::Jump] {
        if let Some(arrival) = listing.arrival(from, way, slot)
            && wanted.is(&arrival)
        {
            return Some(arrival);
        }
    }
    None
}

/// Ways that meet at the slot, and bring different kinds of the subject.
fn meeting(listing: &Listing, slot: usize, subject: Subject, nearest: &Arrival) -> Origin {
    let kind = brought(nearest, subject).kind;
    let unlike = Wanted::Without(subject, kind);
    match last_arrival(listing, slot, &unlike) {
        Some(other) => origin_of_two(slot, subject, &other, nearest),
        None => origin_of_two(slot, subject, nearest, nearest),
    }
}

/// Two ways that meet at the slot: from two instructions, or from one, which goes there in any case and
/// has one side for each.
fn origin_of_two(slot: usize, subject: Subject, first: &Arrival, second: &Arrival) -> Origin {
    let (one, other) = (brought(first, subject), brought(second, subject));
    match (first.way, second.way) {
        (Way::Jump, Way::On) if one.from == other.from => Origin::Sides {
            slot,
            jump: one.from,
            jumped: one.kind,
            on: other.kind,
        },
        _ => Origin::Met {
            slot,
            first: one,
            second: other,
        },
    }
}

fn brought(arrival: &Arrival, subject: Subject) -> Brought {
    Brought {
        from: arrival.from,
        kind: known_of(&arrival.state, subject),
    }
}
