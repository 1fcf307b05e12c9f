use crate::explained::{Explained, explain_taken};
use crate::sentences::push_why;
use scx_isa::Callback;
use scx_load_policies::read_policy;
use scxsim_output::Text;
use std::alloc::Global;

/// The line in which `explain` says why the verifier refuses a callback of the policy in a text. None if it accepts
/// the callback, or memory ran out.
pub fn reason_of_refusal(alloc: Global, policy: &str, callback: Callback) -> Option<String> {
    let mut policy = read_policy(alloc, policy).ok()?;
    let explained = explain_taken(alloc, &mut policy, callback);
    drop(policy);
    let explained = explained.ok()??;
    let line = reason_in(alloc, &explained);
    drop(explained);
    line
}

fn reason_in(alloc: Global, explained: &Explained) -> Option<String> {
    let explanation = explained.explanation.as_ref()?;
    let mut line = Text::new(alloc);
    push_why(&mut line, explained.listing.context().rules, explanation);
    line.finish().ok()
}
