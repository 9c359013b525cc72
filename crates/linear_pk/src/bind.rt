// Initial amounts bound to a kernel.
ghost use Rattle.std.specs.Prelude.{◌≡◌};
ghost use Rattle.refusal.specs.Numbers.{outcome_of};
ghost use Rattle.linear_pk.specs.LinearPk.{bind as bindOf};

use crate::kernel;
use crate::kernel::LinearPk;
use limits::STATES;
use refusal::Refusal;

#[derive(Clone, Copy)]
pub struct BoundLinearPk {
    pub kernel: LinearPk,
    // Amounts from place 0; +0 past the states.
    pub initial: [f64; STATES],
}

impl LinearPk {
    // The kernel with the amounts that a run starts from.
    pub fn bind(self, initial: &[f64]) -> Result<BoundLinearPk, Refusal>
        ensures { outcome_of result ≡ bindOf self initial.now }
    {
        kernel::check(self)?;
        if !binary64::amounts_pass(self.state_count(), initial) {
            return Err(Refusal::Argument);
        }
        let list = linear_pk_mammillary::padded(initial);
        Ok(BoundLinearPk {
            kernel: self,
            initial: list,
        })
    }
}
