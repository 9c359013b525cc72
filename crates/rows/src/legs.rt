// The advance of a leg.
ghost use Rattle.std.specs.Prelude.{◌≡◌, [], ◌∷◌, ◌<◌, take};
ghost use Rattle.refusal.specs.Numbers.{outcome_with};
ghost use Rattle.protocol.specs.Schedule.{arrive as arrives};
ghost use Rattle.rows.specs.Written.{Cells};
ghost use Rattle.rows.specs.Standing.{Ran};
ghost use Rattle.rows.specs.Legs.{moves, rates_of};

use crate::{Leg, Progress, Stopped};
use limits::STATES;
use refusal::Refusal;

impl Leg {
    // The kernel's advance of its amounts.
    fn propagate(&self, amounts: [f64; STATES], duration: f64) -> Result<[f64; STATES], Refusal>
        ensures { outcome_with (take self.now.n) result ≡ moves self.now (take self.now.n amounts) (rates_of self.now) duration }
    {
        let n = self.n;
        let mut next = [0.0f64; STATES];
        self.kernel
            .advance(&amounts[..n], &self.rates[..n], duration, &mut next[..n])?;
        Ok(next)
    }

    // The advance to the time u, the next boundary's or a reading's: 30 where the budget is spent, or the kernel's refusal.
    pub fn arrive(&self, u: f64, start: Progress) -> Result<Progress, Stopped>
        requires { start.made < 4294967296 }
        ensures { (c : Cells) → Ran (moves self.now) self.now.n start (arrives self.now.t (rates_of self.now) u ∷ []) c result c }
    {
        let next = start.past_advance();
        if start.left == 0 {
            return Err(next.stopped_by(Refusal::PropagationBudget, u));
        }
        match self.propagate(start.amounts, u - self.t) {
            Err(refusal) => Err(next.stopped_by(refusal, u)),
            Ok(reached) => Ok(next.with_amounts(reached)),
        }
    }
}
