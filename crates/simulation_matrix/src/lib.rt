// The analytic run of `simulate_matrix`: the boundaries, the distinct samples, and the run over them.
// By contract: n is any count up to the most states, as the definitions take it; the kernel's own would be a tighter clause.
#![tactic(auto)]

ghost use Rattle.std.specs.Prelude.{◌≡◌, ◌≤◌, T, length};
ghost use Rattle.std.proofs.Math.Option.{none};
ghost use Rattle.std.specs.Float.{binary64};
ghost use Rattle.std.specs.Float.Ieee.{fits};
ghost use Rattle.limits.specs.Limits.{states, most_events, most_samples};
ghost use Rattle.binary64.specs.Lists.{all};
ghost use Rattle.protocol.specs.Events.{sorted_unique};
ghost use Rattle.protocol.specs.Prepare.{reckoned, prepare as prepareOf};
ghost use Rattle.protocol.specs.PlainRun.{Prepared};
ghost use Rattle.protocol.specs.Schedule.{schedule};
ghost use Rattle.rows.specs.Written.{RoomForRows};
ghost use Rattle.rows.specs.Lent.{cells_of, SameSlices};
ghost use Rattle.rows.specs.Standing.{Ran, kernel_advance};
ghost use Rattle.simulation_matrix.specs.Started.{started};

use arrayvec::ArrayVec;
use limits::{BOUNDARIES, SAMPLES, STATES};
use linear_pk::LinearPk;
use protocol::{Event, Window};
use rows::{Progress, Rows, Stopped};

pub type Readings = ArrayVec<f64, SAMPLES>;

// The samples in order and each once.
fn distinct(samples: &[f64], readings: &mut Readings)
    requires { length samples.now ≤ most_samples }
    ensures { (readings.new.items ≡ sorted_unique samples.now) × T (all (fits binary64) samples.now) }
{
    readings.clear();
    readings.try_extend_from_slice(samples).unwrap();
    let kept = events_times::sorted_unique(readings.as_mut_slice());
    readings.truncate(kept);
}

// The whole schedule, over the distinct samples and the boundaries.
pub fn on_schedule(
    kernel: LinearPk,
    n: usize,
    initial: [f64; STATES],
    window: Window,
    events: &[Event],
    samples: &[f64],
    rows: &mut Rows<'_>,
) -> Result<Progress, Stopped>
    requires { (n ≤ states) × (length events.now ≤ most_events) × (length samples.now ≤ most_samples)
        × (prepareOf n window samples.now events.now ≡ none)
        × RoomForRows n (reckoned samples.now events.now) (cells_of rows.old) }
    ensures prepared { Prepared n window samples.now events.now }
    ensures ran { Ran (kernel_advance kernel n) n (started initial window.propagations) (schedule n window samples.now events.now)
        (cells_of rows.old) result (cells_of rows.new) }
    ensures slices { SameSlices rows.old rows.new }
{
    let mut readings = Readings::new();
    distinct(samples, &mut readings);
    let mut bounds = [0.0f64; BOUNDARIES];
    let reached = events_boundaries::boundaries(window, events, &mut bounds);
    let start = Progress {
        amounts: initial,
        left: window.propagations,
        made: 0,
        rows: 0,
    };
    simulation_boundaries::over_boundaries(
        kernel,
        n,
        events,
        &bounds[..reached],
        readings.as_slice(),
        start,
        rows,
    )
}
