// The exponential of a block by scaling and squaring of its Taylor series.
// By fixed memory: m of a block's rows and columns are in use, without a heap; a block and its series share one m, which two values would each keep.
#![tactic(auto)]

ghost use Rattle.std.specs.Prelude.{◌≡◌, ◌≤◌, length};
ghost use Rattle.limits.specs.Limits.{block};
ghost use Rattle.matrix.specs.Arrays.{lead, Holds};
ghost use Rattle.matrix.specs.Exponential.{taylor as taylorOf, exponential as exponentialOf, scheme};
ghost use Rattle.refusal.specs.Numbers.{outcome_with};
ghost use Rattle.exponential.specs.Answers.{exponential_of};

use limits::BLOCK;
use refusal::Refusal;

// The series of a, halved count times in place, into p, squared as often. The squarings go through a.
fn taylor(a: &mut [[f64; BLOCK]; BLOCK], m: usize, count: usize, p: &mut [[f64; BLOCK]; BLOCK])
    requires { m ≤ block }
    ensures { Holds m p.new (taylorOf scheme m count (lead m a.old)) }
{
    exponential_series::halved(a, m, count);
    exponential_series::series(a, m, 20, p);
    exponential_series::squared(p, m, count, a);
}

// The exponential of a block, and the halvings that it took.
#[derive(Clone, Copy)]
pub struct Propagator {
    pub halvings: usize,
    pub matrix: [[f64; BLOCK]; BLOCK],
}

// The exponential of the leading m by m part of a.
pub fn exponential(mut a: [[f64; BLOCK]; BLOCK], m: usize) -> Result<Propagator, Refusal>
    requires { (m ≤ block) × (length a ≡ block) }
    ensures { outcome_with (exponential_of m) result ≡ exponentialOf scheme m (lead m a) }
{
    let halvings = exponential_norm::count_halvings(exponential_norm::norm(&a, m), 0.5, 60)?;
    let mut matrix = [[0.0f64; BLOCK]; BLOCK];
    taylor(&mut a, m, halvings, &mut matrix);
    if !exponential_norm::all_finite(&matrix, m) {
        return Err(Refusal::AmountNotFinite);
    }
    Ok(Propagator { halvings, matrix })
}
