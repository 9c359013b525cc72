// From a boundary to the next: the readings strictly inside, and the arrival.
#![tactic(auto)]

ghost use Rattle.std.specs.Prelude.{[], ◌∷◌, map};
ghost use Rattle.protocol.specs.Schedule.{reading, on_interval};
ghost use Rattle.rows.specs.Lent.{cells_of, SameSlices};
ghost use Rattle.rows.specs.Standing.{Ran, Fits};
ghost use Rattle.rows.specs.Legs.{moves, rates_of};
ghost use Rattle.protocol.specs.Events.{inside};

use refusal::Refusal;
use rows::{Leg, Progress, Rows, Side, Stopped};

// One reading at s: the row of an advance from the amounts at the leg's boundary.
pub fn read(leg: &Leg, s: f64, start: Progress, rows: &mut Rows<'_>) -> Result<Progress, Stopped>
    requires { Fits leg.now.n start (reading leg.now.t (rates_of leg.now) s ∷ []) (cells_of rows.old) }
    ensures ran { Ran (moves leg.now) leg.now.n start (reading leg.now.t (rates_of leg.now) s ∷ [])
        (cells_of rows.old) result (cells_of rows.new) }
    ensures slices { SameSlices rows.old rows.new }
{
    let p = leg.arrive(s, start)?;
    let q = rows.write(leg.n, s, Side::Post, p);
    Ok(q.with_amounts(start.amounts))
}

// The readings strictly inside up to u, each from the amounts at the leg's boundary.
// By the step: samples are the run's and the same at each step, start is where this step goes on from, and rows are written.
fn read_all(
    leg: &Leg,
    u: f64,
    samples: &[f64],
    start: Progress,
    rows: &mut Rows<'_>,
) -> Result<Progress, Stopped>
    requires { Fits leg.now.n start (map (reading leg.now.t (rates_of leg.now)) (inside leg.now.t u samples.now)) (cells_of rows.old) }
    ensures ran { Ran (moves leg.now) leg.now.n start (map (reading leg.now.t (rates_of leg.now)) (inside leg.now.t u samples.now))
        (cells_of rows.old) result (cells_of rows.new) }
    ensures slices { SameSlices rows.old rows.new }
{
    let mut p = start;
    for s in samples {
        let s = *s;
        if leg.t < s {
            if s < u {
                p = read(leg, s, p, rows)?;
            }
        }
    }
    Ok(p)
}

// The leg to the next boundary u: 32, the readings, the arrival.
pub fn on_interval(
    leg: &Leg,
    u: f64,
    samples: &[f64],
    start: Progress,
    rows: &mut Rows<'_>,
) -> Result<Progress, Stopped>
    requires { Fits leg.now.n start (on_interval leg.now.t (rates_of leg.now) u samples.now) (cells_of rows.old) }
    ensures ran { Ran (moves leg.now) leg.now.n start (on_interval leg.now.t (rates_of leg.now) u samples.now)
        (cells_of rows.old) result (cells_of rows.new) }
    ensures slices { SameSlices rows.old rows.new }
{
    if !binary64::all_finite(&leg.rates[..leg.n]) {
        return Err(start.stopped_by(Refusal::SummedRates, 0.0));
    }
    let p = read_all(leg, u, samples, start, rows)?;
    leg.arrive(u, p)
}
