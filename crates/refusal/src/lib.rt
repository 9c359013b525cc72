// What an entry replies: done, or one of document 01's refusals.
#![tactic(auto)]

ghost use Rattle.std.specs.Prelude.{◌≡◌};
ghost use Rattle.refusal.specs.Numbers.{refusal_number, reply_number};

#[derive(Clone, Copy, Debug, PartialEq, Eq, PartialOrd, Ord)]
pub enum Refusal {
    // Parameters outside those that `new` takes, or a kernel with such a count or volume.
    Parameters = 1,
    RateNotFinite = 2,
    // A wrong count, or a value that is not finite or below 0.
    Argument = 3,
    ShortSlice = 4,
    // More events or samples than a run can hold.
    Limit = 5,
    // A window's ends or tolerances.
    Window = 10,
    // A sample outside the window.
    Sample = 11,
    // An event outside what a run takes.
    Event = 12,
    // More events than the budget.
    EventBudget = 13,
    // More values than the budget.
    OutputBudget = 14,
    // A cycle's ends or its period.
    Period = 15,
    // An event outside the half-open cycle.
    CycleEvent = 16,
    // An infusion of a cycle: duration, amount or stop.
    CycleInfusion = 17,
    // The count of whole periods that an infusion lasts is not finite.
    Overlap = 18,
    // The tolerances of a steady state.
    Tolerance = 19,
    NormNotFinite = 20,
    TooManyHalvings = 21,
    AmountNotFinite = 22,
    ConcentrationNotFinite = 23,
    // More advances than the budget.
    PropagationBudget = 30,
    // An amount at a boundary that is not finite or below 0.
    State = 31,
    // A summed rate that is not finite.
    SummedRates = 32,
    // A pivot that is not finite or too small.
    Pivot = 33,
    // A solution that is not finite or below 0.
    Candidate = 34,
    // The scale of a residual is not finite.
    Scale = 35,
    // A scaled residual is not finite or above 1.
    Residual = 36,
    // Words outside the layout of a sheet or of its events.
    Layout = 40,
}

// 01's number of a refusal.
impl From<Refusal> for u64 {
    ghost from_gives = { λ r n. n ≡ refusal_number r };

    fn from(refusal: Refusal) -> u64 {
        refusal as u64
    }
}

// The number of a reply; 0 stands for done.
// By name: a `From` would be of two types of the library, and none of this crate.
pub fn number(reply: Result<(), Refusal>) -> u64
    ensures { result ≡ reply_number reply }
{
    match reply {
        Ok(()) => 0,
        Err(refusal) => u64::from(refusal),
    }
}
