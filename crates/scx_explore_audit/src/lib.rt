//! An audit of the states that a search has kept: they leave nothing out.
//!
//! `none_in_lists` goes through a table that a search has ended with. Where it answers true, no list of events or of
//! milliseconds shows what it was asked about, as long as what the form of a state leaves out changes nothing: none of
//! any number of them, or of as many as the search went. The search isn't trusted: each state of the table is come to
//! again, and each move is tried in it.
//!
//! Laws about the machine say what states may leave out, each the contract of a function that does nothing. If no
//! program loads run times or virtual times, or lists are too short for a stall, two machines that differ in these, or in
//! how long tasks wait, show the same. If no program inserts by a virtual time, no task waits by one. If none reads the
//! clock, no event depends on it.
#![tactic(auto)]

mod advance;
mod audit;
mod depths;
mod events;
mod laws;
mod milliseconds;
mod moves;
mod queues;
mod room;
mod sorts;
mod states;
mod table;
mod walking;

pub use audit::none_in_lists;
pub use laws::{
    asking_decides, closed_tables_cover, computed_forms_are_whole, counts_change_nothing,
    events_dont_depend, events_leave_no_notes, lists_are_of_events, lists_dont_depend,
    nobody_is_late, nobody_waits_by_vtime, reached_states_go_alike, refused_events_show_nothing,
    same_machines_show_the_same, unread_parts_are_respected, unread_parts_change_nothing,
    whole_forms_are_respected, whole_forms_are_so_in_runs, words_dont_depend,
};
pub use table::{Moves, Table};
