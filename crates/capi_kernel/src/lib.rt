// A kernel and a bound kernel as cells, doubles in a slice.
// By the C interface: a function has the parameters that a C program passes, one by one.
#![tactic(auto)]

ghost use Rattle.std.specs.Prelude.{◌≡◌, length, leb};
ghost use Rattle.refusal.specs.Numbers.{reply_number};
ghost use Rattle.refusal.specs.Result.{number, slice_at_exit, unless};
ghost use Rattle.capi_kernel.specs.Cells.{absorption_of, kernel_at, new_cells, bind_cells};

use linear_pk::LinearPk;
use refusal::Refusal;

// The cells from the front of out, where they fit; the cells behind them stay.
fn lay_cells<const N: usize>(cells: &[f64; N], out: &mut [f64]) -> Result<(), Refusal>
    ensures value { reply_number result ≡ number (unless (leb N (length out.old)) 4 cells.now) }
    ensures out_after { out.new ≡ slice_at_exit (unless (leb N (length out.old)) 4 cells.now) out.old }
{
    if out.len() < N {
        return Err(Refusal::ShortSlice);
    }
    linear_pk_interval::lay(cells, out);
    Ok(())
}

// The cells of a new kernel.
#[tactic(auto, unfolding(crate::specs::Cells::new_cells))]
pub fn new(
    clearance: f64,
    volumes: &[f64],
    exchange: &[f64],
    depot: bool,
    absorption: f64,
    kernel: &mut [f64],
) -> Result<(), Refusal>
    ensures value { reply_number result ≡ number (new_cells clearance volumes.now exchange.now (absorption_of depot absorption)
        (length kernel.old)) }
    ensures kernel_after { kernel.new ≡ slice_at_exit (new_cells clearance volumes.now exchange.now
        (absorption_of depot absorption) (length kernel.old)) kernel.old }
{
    let made = LinearPk::new(
        clearance,
        volumes,
        exchange,
        capi_kernel_cells::absorption_of(depot, absorption),
    )?;
    lay_cells(&capi_kernel_cells::kernel_cells(made), kernel)
}

// The cells of a kernel with its initial amounts.
#[tactic(auto, unfolding(crate::specs::Cells::bind_cells))]
pub fn bind(kernel: &[f64], initial: &[f64], bound: &mut [f64]) -> Result<(), Refusal>
    ensures value { reply_number result ≡ number (bind_cells (kernel_at kernel.now) initial.now (length bound.old)) }
    ensures bound_after { bound.new ≡ slice_at_exit (bind_cells (kernel_at kernel.now) initial.now
        (length bound.old)) bound.old }
{
    let made = capi_kernel_cells::kernel_at(kernel).bind(initial)?;
    lay_cells(&capi_kernel_cells::bound_cells(made), bound)
}
