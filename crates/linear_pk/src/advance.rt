// Amounts after an interval with constant input rates.
ghost use Rattle.std.specs.Prelude.{◌≡◌, length};
ghost use Rattle.matrix.specs.Exponential.{scheme};
ghost use Rattle.refusal.specs.Numbers.{reply_number};
ghost use Rattle.refusal.specs.Result.{number, slice_at_exit};
ghost use Rattle.linear_pk.specs.LinearPk.{advance as advanceOf};

use crate::kernel;
use crate::kernel::LinearPk;
use refusal::Refusal;

impl LinearPk {
    // The amounts after a duration at constant input rates, into the first cells of result, one for each state.
    pub fn advance(
        self,
        amounts: &[f64],
        rates: &[f64],
        duration: f64,
        res: &mut [f64],
    ) -> Result<(), Refusal>
        ensures result_value { reply_number result ≡ number (advanceOf scheme self amounts.now rates.now duration (length res.old)) }
        ensures res_after { res.new ≡ slice_at_exit (advanceOf scheme self amounts.now rates.now duration
            (length res.old)) res.old }
    {
        kernel::check(self)?;
        let n = self.state_count();
        if !(binary64::amounts_pass(n, amounts)
            & (binary64::amounts_pass(n, rates) & binary64::is_nonnegative(duration)))
        {
            return Err(Refusal::Argument);
        }
        if res.len() < n {
            return Err(Refusal::ShortSlice);
        }
        linear_pk_interval::interval(self.matrix, amounts, rates, duration, res)
    }
}
