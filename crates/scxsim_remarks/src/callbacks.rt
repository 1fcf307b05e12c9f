use crate::named_text::NamedText;
use crate::remarks::remark_on_callback;
use scx_isa::{CALLBACKS, Callback};
use scxsim_commands::{Verdict, Verdicts};
use scxsim_output::Text;
use std::alloc::Global;

/// The line at fault of each callback that the verifier refused. None where it refused none, or memory ran out.
pub fn remarks_on_callbacks(
    alloc: Global,
    policy: NamedText<'_>,
    verdicts: &Verdicts,
) -> Option<String> {
    let mut said = Text::new(alloc);
    for callback in CALLBACKS {
        if let Some(remark) = remark_on_verdict(alloc, policy, callback, verdicts.get(callback)) {
            said.push(&remark);
        }
    }
    if said.as_str().is_empty() {
        return None;
    }
    said.finish().ok()
}

fn remark_on_verdict(
    alloc: Global,
    policy: NamedText<'_>,
    callback: Callback,
    verdict: Option<&Verdict>,
) -> Option<String> {
    match *verdict? {
        Verdict::Accepted(_) => None,
        Verdict::Refused(fault, slot) => remark_on_callback(alloc, policy, callback, fault, slot),
    }
}
