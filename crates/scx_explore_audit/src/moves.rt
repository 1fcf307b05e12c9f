ghost use Rattle.std.specs.Prelude.{◌≡◌, true, List, [], ◌∷◌};
ghost use Rattle.scx_sched_machine.specs.declared.events.Event.{Event};
ghost use Rattle.scx_explore_findings.specs.Path.{machine_of};
ghost use Rattle.scx_explore_audit.specs.Closed.{LeadsBack, claim_of};
ghost use Rattle.scx_explore_audit.specs.Tried.{IsTriedIn};

use crate::advance::{Went, go_along};
use crate::events::events_lead_back;
use crate::milliseconds::wakes_lead_back;
use crate::states::{begin, is_met};
use crate::table::{Charted, Hand, Moves};
use scx_explore_findings::Path;
use scx_sched::Event;

/// True if each move that is tried leads back into the table, to a state to which `depth` moves lead, or ends the list, and shows
/// nothing.
pub(crate) fn moves_lead_back(
    charted: Charted<'_>,
    depth: usize,
    began: u64,
    path: &mut Path,
    hand: &mut Hand,
) -> bool
    ensures same { path.new ≡ path.old }
    ensures back { result ≡ true → (es : List Event)
        → IsTriedIn charted.entry.table.form.slices charted.entry.table.moves path.old.root
        (machine_of path.old) es
        → LeadsBack (claim_of charted.entry) depth (machine_of path.old) es }
{
    match charted.table.moves {
        Moves::Events => events_lead_back(charted, depth, began, path, hand),
        Moves::Milliseconds => {
            begin(hand, path, began);
            wakes_lead_back(charted, depth, 0, path, hand)
        }
    }
}

/// True if a move of which that event is left leads back.
pub(crate) fn last_leads_back(
    charted: Charted<'_>,
    depth: usize,
    event: Event,
    path: &mut Path,
    hand: &mut Hand,
) -> bool
    ensures same { path.new ≡ path.old }
    ensures back { result ≡ true
        → LeadsBack (claim_of charted.entry) depth (machine_of path.old) (event ∷ []) }
{
    let length = path.events().len();
    match go_along(charted.table.sorts, event, path, hand) {
        Went::There => {
            let met = is_met(charted, depth, path.sim(), hand);
            path.go_back(length);
            met
        }
        Went::Over => true,
        Went::Shows => false,
    }
}
