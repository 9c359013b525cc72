// The Taylor series of the exponential of a block; a block halved, and squared, a number of times.
// By fixed memory: m of a block's rows and columns are in use, without a heap; two blocks share one m, which two values would each keep.
#![tactic(auto)]

ghost use Rattle.std.specs.Prelude.{◌≡◌, ◌≤◌, [], get_or};
ghost use Rattle.limits.specs.Limits.{block};
ghost use Rattle.matrix.specs.Arrays.{updated, row_times, row_quotient, row_sum_of, lead, Holds, row_half};
ghost use Rattle.matrix.specs.Matrix.{identity as identityOf};
ghost use Rattle.matrix.specs.Exponential.{series as seriesOf, halved_times, squarings};

use limits::BLOCK;
use matrix::row;

// The next term, term × a / x, in place.
fn next_term(term: &mut [[f64; BLOCK]; BLOCK], a: &[[f64; BLOCK]; BLOCK], m: usize, x: f64)
    requires { m ≤ block }
    ensures { term.new ≡ updated m (λ i r. row_quotient (row_times r a.now m) x) term.old }
{
    for row in &mut term[..m] {
        *row = row::divided(row::times(row, a, m), x);
    }
}

// sum + term, in place.
fn add_term(sum: &mut [[f64; BLOCK]; BLOCK], term: &[[f64; BLOCK]; BLOCK], m: usize)
    requires { m ≤ block }
    ensures { sum.new ≡ updated m (λ i r. row_sum_of r (get_or term.now i [])) sum.old }
{
    // By index: of rows that are written through a zip nothing is known after the loop, so that its proof does not close.
    for (i, row) in sum[..m].iter_mut().enumerate() {
        *row = row::added(*row, term[i]);
    }
}

fn identity(m: usize) -> [[f64; BLOCK]; BLOCK]
    requires { m ≤ block }
    ensures { Holds m result (identityOf m) }
{
    let zeros = [0.0f64; BLOCK];
    let mut r = [zeros; BLOCK];
    for (i, row) in r[..m].iter_mut().enumerate() {
        row[i] = 1.0;
    }
    r
}

// 1 + a + a²/2! + .., the first terms after 1, into sum. Lent: by value it takes up to a sixteenth longer (docs/BENCHMARKS.md).
pub fn series(a: &[[f64; BLOCK]; BLOCK], m: usize, terms: u32, sum: &mut [[f64; BLOCK]; BLOCK])
    requires { m ≤ block }
    ensures { Holds m sum.new (seriesOf m (lead m a.now) terms).sum }
{
    let mut term = identity(m);
    *sum = term;
    // By count: k is the number of the term, and no index.
    for k in 0..terms {
        let x = (k + 1) as f64;
        next_term(&mut term, a, m, x);
        add_term(sum, &term, m);
    }
}

// a·½, in place
fn halve(a: &mut [[f64; BLOCK]; BLOCK], m: usize)
    requires { m ≤ block }
    ensures { a.new ≡ updated m (λ i r. row_half r) a.old }
{
    for row in &mut a[..m] {
        *row = row::halved(*row);
    }
}

// p × p into out.
fn square(p: &[[f64; BLOCK]; BLOCK], m: usize, out: &mut [[f64; BLOCK]; BLOCK])
    requires { m ≤ block }
    ensures { out.new ≡ updated m (λ i r. row_times (get_or p.now i []) p.now m) out.old }
{
    // By index: of rows written through a zip nothing is known after the loop; `enumerate` would index p too, and takes a sixth longer.
    for i in 0..m {
        let line = p[i];
        out[i] = row::times(&line, p, m);
    }
}

// The block halved count times, one halving at a time, in place.
pub fn halved(a: &mut [[f64; BLOCK]; BLOCK], m: usize, count: usize)
    requires { m ≤ block }
    ensures { Holds m a.new (halved_times m count (lead m a.old)) }
{
    // By count: the loop counts turns, and has no index.
    for k in 0..count {
        halve(a, m);
    }
}

// p squared count times: once if count is odd, then two at a time, into next and back.
pub fn squared(
    p: &mut [[f64; BLOCK]; BLOCK],
    m: usize,
    count: usize,
    next: &mut [[f64; BLOCK]; BLOCK],
)
    requires { m ≤ block }
    ensures { Holds m p.new (squarings m count (lead m p.old)) }
{
    if count % 2 == 1 {
        square(p, m, next);
        *p = *next;
    }
    let pairs = count / 2;
    // By count: the loop counts turns, and has no index.
    for k in 0..pairs {
        square(p, m, next);
        square(next, m, p);
    }
}
