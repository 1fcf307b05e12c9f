ghost use Rattle.scx_isa_semantics.specs.Laws.{OneEnd, OneStuck, EndsOrGetsStuck, EndCarriesOver, StuckCarriesOver};
ghost use Rattle.scx_isa_semantics.specs.declared.values.Value.{Value};
ghost use Rattle.scx_isa_semantics.specs.Effects.{Query};
ghost use Rattle.scx_isa_semantics.specs.Runs.{any_answer};

/// An outside that answers a program's queries.
pub trait Responder {
    /// The answers that it may give to a query, and its state after each.
    ghost responds: { Self → Query → Value → Self → Type 0 };
}

/// Nothing is known of it but that its answers fit.
impl Responder for () {
    ghost responds = { any_answer };
}

/// Where the host answers each query in one way a run has one outcome: it ends with one answer after
/// one number of steps, or gets stuck at one slot, and leaves the same maps and the same host. The
/// function does nothing: its contract is the law.
pub fn run_has_one_outcome<W>()
    ensures one_end { OneEnd W }
    ensures one_stuck { OneStuck W }
    ensures not_both { EndsOrGetsStuck W }
{}

/// A run over one host is a run over any other that allows as much, even if that is of another kind
/// and sees less: its states are what some function makes of the first one's. The function does
/// nothing: its contract is the law.
pub fn run_carries_over<W: Responder, V: Responder>()
    ensures end { EndCarriesOver W.responds V.responds }
    ensures stuck { StuckCarriesOver W.responds V.responds }
{}
