// The run of one more cycle from the amounts of a closed one, and its printout.
// By room: a type that kept these three lengths would be made for one run and opened at one; `Rows` lends the slices as they are.
#![tactic(auto)]

ghost use Rattle.std.specs.Prelude.{◌≡◌, ◌+◌, ◌/◌, ◌≤◌, length, take, drop};
ghost use Rattle.limits.specs.Limits.{cycle_rows, cycle_values};
ghost use Rattle.linear_pk.specs.LinearPk.{state_count};
ghost use Rattle.cycle.specs.Closed.{got};
ghost use Rattle.rows.specs.Lent.{SameSlices};
ghost use Rattle.sheet.specs.Sheet.{words_of};
ghost use Rattle.sheet_kernel.specs.CycleTolerance.{tolerance_of};
ghost use Rattle.rig_steady_cycle.specs.SheetCycle.{steady_read};
ghost use Rattle.rig_cycle_next.specs.NextRun.{next_read};
ghost use Rattle.rig_cycle_next.specs.Solves.{Solves};
ghost use Rattle.printout.specs.Replies.{Prints};
ghost use Rattle.rig_cycle_next.specs.NextPrintout.{cycle_printout};

use limits::SAMPLES;
use periodic_next::simulate_cycle;
use printout::PrintReply;
use printout_cycle::PrintedCycle;
use protocol::EventList;
use refusal::Refusal;
use rows::{Rows, cells};
use sheet::Part;
use sheet_kernel::{ReadSheet, tolerance_of};

// The cycle of a sheet, folded and run from the amounts that solve it: the place in the values from which those at its end stand.
pub fn run_next(sheet: &ReadSheet, amounts: &[f64], residual: &[f64], rows: &mut Rows<'_>) -> usize
    requires { Solves (steady_read sheet.now) amounts.now residual.now
        × (cycle_rows ≤ length rows.old.times.now) × (cycle_rows ≤ length rows.old.sides.now)
        × (cycle_values ≤ length rows.old.values.now) }
    ensures end { (result + state_count sheet.now.kernel ≤ length rows.new.values.now)
        × (next_read sheet.now
        ≡ got (record {
          tolerance = tolerance_of (words_of sheet.now.bodies.window.now);
          starts = amounts.now;
          ends = take
              (state_count sheet.now.kernel) (drop result rows.new.values.now);
          residuals = residual.now;
        })) }
    ensures slices { SameSlices rows.old rows.new }
{
    let bodies = sheet.bodies;
    let count = bodies.samples.len() / 8;
    let mut held: [f64; SAMPLES] = cells();
    let readings = &mut held[..count];
    sheet_values::doubles(bodies.samples, 0, readings);
    let list = events_layout::events_of(Part(bodies.events));
    let span = sheet_values::window_of(bodies.window);
    let mut folded = EventList::new();
    fold::normalize_periodic_cycle(
        sheet.kernel,
        span,
        list.as_slice(),
        readings,
        &mut folded,
    ).unwrap();
    simulate_cycle(sheet.kernel, span, folded.as_slice(), amounts, rows)
}

// Runs that cycle and prints it.
pub fn next_solved(
    sheet: &ReadSheet,
    amounts: &[f64],
    residual: &[f64],
    rows: &mut Rows<'_>,
    out: &mut [u8],
) -> PrintReply
    requires { Solves (steady_read sheet.now) amounts.now residual.now
        × (cycle_rows ≤ length rows.old.times.now) × (cycle_rows ≤ length rows.old.sides.now)
        × (cycle_values ≤ length rows.old.values.now) }
    ensures { Prints (cycle_printout (next_read sheet.now)) out.old result out.new }
{
    let from = run_next(sheet, amounts, residual, rows);
    let cycle = PrintedCycle {
        tolerance: tolerance_of(sheet.bodies.window),
        n: sheet.kernel.state_count(),
        starts: amounts,
        ends: &rows.values[from..],
    };
    cycle.print(residual, out)
}
