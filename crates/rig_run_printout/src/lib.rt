// The run of a sheet: its bytes in, the bytes of its printout out.
#![tactic(auto)]

ghost use Rattle.std.specs.Prelude.{◌≡◌, cond, ◌*◌, ◌/◌, leb, length};
ghost use Rattle.limits.specs.Limits.{read_amounts};
ghost use Rattle.refusal.specs.Numbers.{reply_number};
ghost use Rattle.linear_pk.specs.LinearPk.{state_count};
ghost use Rattle.printout.specs.Replies.{Prints};
ghost use Rattle.rig_run_printout.specs.BodiesPrintout.{reckoned_in, bodies_printout};
ghost use Rattle.printout.specs.Cells.{printed, printed_length};
ghost use Rattle.printout.specs.Printouts.{number_into};
ghost use Rattle.rig_run_printout.specs.Rig.{printout_of_bytes};

use limits::{EVENT_BYTES, READ_AMOUNTS, SAMPLES, SHEET_ROWS, SHEET_VALUES, STATES};
use linear_pk::LinearPk;
use printout::{PrintReply, print_refusal, print_refused, print_run};
use printout_rows::PrintedRows;
use rig_run_sheet::{known, simulate_bodies};
use rows::cells;
use sheet::Part;
use sheet_events::ordered;
use sheet_kernel::{Bodies, read_bodies};
use simulation_report::RunError;

// The most bytes of a printout: "rows", three digits and "ordered", and the most rows, each with the longer side.
pub const RUN_BYTES: usize = 34 + SHEET_ROWS * (22 + 17 * STATES);

// Runs a kernel and the other bodies in lent cells, and prints the run.
// By slices: tried with `rows::Rows`, of whose slices the borrow check does not cover that all three are lent at once for the printout.
fn run_cells(
    kernel: LinearPk,
    bodies: &Bodies,
    initial: &mut [f64],
    readings: &mut [f64],
    times: &mut [f64],
    sides: &mut [u8],
    values: &mut [f64],
    out: &mut [u8],
) -> PrintReply
    requires { (length initial.old ≡ cond (leb (length bodies.now.amounts.now / 8) read_amounts)
        (length bodies.now.amounts.now / 8) read_amounts)
        × (length readings.old ≡ length bodies.now.samples.now / 8)
        × (length times.old ≡ reckoned_in bodies.now) × (length sides.old ≡ reckoned_in bodies.now)
        × (length values.old ≡ reckoned_in bodies.now * state_count kernel) }
    ensures { Prints (bodies_printout kernel bodies.now) out.old result out.new }
{
    let run = simulate_bodies(
        kernel,
        bodies.window,
        bodies.amounts,
        bodies.samples,
        bodies.events,
        initial,
        readings,
        times,
        sides,
        values,
    );
    match run {
        Err(RunError::Refused(refusal)) => print_refusal(refusal, out),
        Err(RunError::Stopped { refusal, time, .. }) => print_refused(refusal, time, out),
        Ok(reached) => {
            let rows = PrintedRows {
                n: kernel.state_count(),
                rows: reached.rows,
                times,
                sides,
                values,
            };
            print_run(&rows, ordered(Part(bodies.events)), out)
        }
    }
}

// The same in cells of its own, for the most that a sheet holds.
pub fn run_bodies(kernel: LinearPk, bodies: &Bodies, out: &mut [u8]) -> PrintReply
    ensures { Prints (bodies_printout kernel bodies.now) out.old result out.new }
{
    let first = known(bodies.amounts.len() / 8);
    let count = bodies.samples.len() / 8;
    let rows = 4 * (bodies.events.len() / EVENT_BYTES) + count + 2;
    let held = rows * kernel.state_count();
    let mut initial = [0.0f64; READ_AMOUNTS];
    let mut readings: [f64; SAMPLES] = cells();
    let mut times: [f64; SHEET_ROWS] = cells();
    let mut sides: [u8; SHEET_ROWS] = cells();
    let mut values: [f64; SHEET_VALUES] = cells();
    run_cells(
        kernel,
        bodies,
        &mut initial[..first],
        &mut readings[..count],
        &mut times[..rows],
        &mut sides[..rows],
        &mut values[..held],
        out,
    )
}

// The printout of a sheet, from the front of out. Where it has no room there nothing is written, and an answer is 4.
// By its own entry: `steady_sheet` and `cycle_sheet` call others, and one function over the three would ask for a closure with this contract from each.
pub fn run_sheet(bytes: &[u8], out: &mut [u8]) -> PrintReply
    ensures reply_value { reply_number result.reply ≡ number_into out.old (printout_of_bytes bytes.now) }
    ensures length_value { result.length ≡ printed_length (printout_of_bytes bytes.now).text out.old }
    ensures out_after { out.new ≡ printed (printout_of_bytes bytes.now).text out.old }
{
    match read_bodies(bytes) {
        Err(refusal) => print_refusal(refusal, out),
        Ok(sheet) => run_bodies(sheet.kernel, &sheet.bodies, out),
    }
}
