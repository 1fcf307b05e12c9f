ghost use Rattle.std.specs.Prelude.{◌≡◌, ℕ, ◌<◌, ◌^◌, IfOk, IfErr, IfSome, IfNone};
ghost use Rattle.scxsim_commands.specs.Windows.{Says, IsPart, IsWindow, IsSpanRefusal, IsBadSpan};

use crate::{Refusal, Word};

/// The words that name a part of a run: the millisecond with which it begins, and the one with which it ends.
#[derive(Clone, Copy)]
pub struct Span<'a> {
    pub from: &'a str,
    pub to: &'a str,
}

/// A part of a run, in moments. It isn't empty.
#[derive(Clone, Copy)]
pub struct Window {
    pub from: u64,
    pub to: u64,
}

impl Window {
    /// The whole of a run of `ms` milliseconds, or the part that words name.
    ///
    /// # Errors
    ///
    /// `FROM` is no number, or doesn't come before `TO` and the end of the run. `TO` is no number, or comes
    /// after the end of the run.
    pub fn of(span: Option<Span<'_>>, ms: u32) -> Result<Window, Refusal>
        ensures window { IfOk result (IsWindow ms span.entry) }
        ensures refused { IfErr result (IsBadSpan ms span.entry) }
    {
        match span {
            Some(span) => part_of(span, ms),
            None => Ok(Window {
                from: 0,
                to: u64::from(ms).max(1),
            }),
        }
    }
}

/// The part of a run of `ms` milliseconds that words name.
#[tactic(auto, using(crate::proofs::Parting::unsaid_from, crate::proofs::Parting::unsaid_to, crate::proofs::Parting::after_the_last, crate::proofs::Parting::late, crate::proofs::Parting::outside))]
fn part_of(span: Span<'_>, ms: u32) -> Result<Window, Refusal>
    ensures part { IfOk result (λ window. IsPart ms span.entry window.from window.to) }
    ensures refused { IfErr result IsSpanRefusal }
    ensures none { IfErr result (λ _. (from to : ℕ) → ¬ IsPart ms span.entry from to) }
{
    let Some(from) = moment_of(span.from) else {
        return Err(Refusal::OutOfRange(Word::From));
    };
    let Some(to) = moment_of(span.to) else {
        return Err(Refusal::OutOfRange(Word::To));
    };
    if from >= to || from >= u64::from(ms) {
        return Err(Refusal::OutOfRange(Word::From));
    }
    if to > u64::from(ms) {
        return Err(Refusal::OutOfRange(Word::To));
    }
    Ok(Window { from, to })
}

/// The moment that a word says, in digits.
fn moment_of(word: &str) -> Option<u64>
    ensures said { IfSome result (Says word.now) }
    ensures unsaid { IfNone result ((m : ℕ) → m < 2 ^ 32 → ¬ Says word.now m) }
{
    match word.parse::<u32>() {
        Ok(moment) => Some(u64::from(moment)),
        Err(_) => None,
    }
}
