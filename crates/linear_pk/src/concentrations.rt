// Amounts by volume.
ghost use Rattle.std.specs.Prelude.{◌≡◌, length};
ghost use Rattle.refusal.specs.Numbers.{reply_number};
ghost use Rattle.refusal.specs.Result.{number, slice_at_exit};
ghost use Rattle.linear_pk.specs.LinearPk.{concentrations as concentrationsOf};

use crate::kernel;
use crate::kernel::LinearPk;
use refusal::Refusal;

impl LinearPk {
    // The concentrations of central and the peripherals, into the first cells of result.
    pub fn concentrations(self, amounts: &[f64], res: &mut [f64]) -> Result<(), Refusal>
        ensures result_value { reply_number result ≡ number (concentrationsOf self amounts.now (length res.old)) }
        ensures res_after { res.new ≡ slice_at_exit (concentrationsOf self amounts.now (length res.old))
            res.old }
    {
        kernel::check(self)?;
        linear_pk_values::concentrations(
            self.depot,
            &self.volumes[..self.compartments],
            amounts,
            res,
        )
    }
}
