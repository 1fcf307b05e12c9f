ghost use Rattle.std.specs.Prelude.{◌≡◌, ℕ, ◌<◌, ◌^◌, IfSome, IfNone};
ghost use Rattle.scxsim_steps.specs.Moments.{Says, IsMoment};

/// The millisecond that a word names, in a run of that many.
#[tactic(auto, using(crate::proofs::Refusing::unsaid, crate::proofs::Refusing::past))]
pub(crate) fn moment_in(word: &str, all: u32) -> Option<u64>
    ensures found { IfSome result (IsMoment all word.now) }
    ensures none { IfNone result ((ms : ℕ) → ¬ IsMoment all word.now ms) }
{
    let ms = moment_of(word)?;
    if u64::from(all) < ms {
        return None;
    }
    Some(ms)
}

/// The millisecond that a word says, in digits.
fn moment_of(word: &str) -> Option<u64>
    ensures said { IfSome result (Says word.now) }
    ensures unsaid { IfNone result ((m : ℕ) → m < 2 ^ 32 → ¬ Says word.now m) }
{
    match word.parse::<u32>() {
        Ok(moment) => Some(u64::from(moment)),
        Err(_) => None,
    }
}
