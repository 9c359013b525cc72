// The C interface: doubles, lent slices and 01's numbers. include/linear_pk.h says each function's contract in plain words.
// By the C interface: a function has the parameters that a C program passes, one by one.
#![tactic(auto)]

mod cycles;
mod run;
mod sheets;
mod steady_sheets;

ghost use Rattle.std.specs.Prelude.{◌≡◌, length};
ghost use Rattle.refusal.specs.Result.{number, slice_at_exit};
ghost use Rattle.matrix.specs.Exponential.{scheme};
ghost use Rattle.linear_pk.specs.LinearPk.{state_count, advance, concentrations};
ghost use Rattle.capi_kernel.specs.Cells.{absorption_of, kernel_at, new_cells, bind_cells};

#[unsafe(no_mangle)]
pub extern "C" fn linear_pk_new(
    clearance: f64,
    volumes: &[f64],
    exchange: &[f64],
    depot: bool,
    absorption: f64,
    kernel: &mut [f64],
) -> u64
    ensures value { result ≡ number (new_cells clearance volumes.now exchange.now (absorption_of depot absorption)
        (length kernel.old)) }
    ensures kernel_after { kernel.new ≡ slice_at_exit (new_cells clearance volumes.now exchange.now
        (absorption_of depot absorption) (length kernel.old)) kernel.old }
{
    refusal::number(capi_kernel::new(clearance, volumes, exchange, depot, absorption, kernel))
}

#[unsafe(no_mangle)]
pub extern "C" fn linear_pk_state_count(kernel: &[f64]) -> u64
    ensures { result ≡ state_count (kernel_at kernel.now) }
{
    capi_kernel_cells::kernel_at(kernel).state_count() as u64
}

#[unsafe(no_mangle)]
pub extern "C" fn linear_pk_advance(
    kernel: &[f64],
    amounts: &[f64],
    rates: &[f64],
    duration: f64,
    res: &mut [f64],
) -> u64
    ensures value { result ≡ number (advance scheme (kernel_at kernel.now) amounts.now rates.now duration
        (length res.old)) }
    ensures res_after { res.new ≡ slice_at_exit (advance scheme (kernel_at kernel.now) amounts.now
        rates.now duration (length res.old)) res.old }
{
    refusal::number(capi_kernel_cells::kernel_at(kernel).advance(amounts, rates, duration, res))
}

#[unsafe(no_mangle)]
pub extern "C" fn linear_pk_concentrations(kernel: &[f64], amounts: &[f64], res: &mut [f64]) -> u64
    ensures value { result ≡ number (concentrations (kernel_at kernel.now) amounts.now (length res.old)) }
    ensures res_after { res.new ≡ slice_at_exit (concentrations (kernel_at kernel.now) amounts.now
        (length res.old)) res.old }
{
    refusal::number(capi_kernel_cells::kernel_at(kernel).concentrations(amounts, res))
}

#[unsafe(no_mangle)]
pub extern "C" fn linear_pk_bind(kernel: &[f64], initial: &[f64], bound: &mut [f64]) -> u64
    ensures value { result ≡ number (bind_cells (kernel_at kernel.now) initial.now (length bound.old)) }
    ensures bound_after { bound.new ≡ slice_at_exit (bind_cells (kernel_at kernel.now) initial.now
        (length bound.old)) bound.old }
{
    refusal::number(capi_kernel::bind(kernel, initial, bound))
}
