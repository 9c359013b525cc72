// One more cycle from the amounts of a sheet's closed one: its bytes in, the bytes of its printout out.
// By room: a type that kept these three lengths would be made for one run and opened at one; `Rows` lends the slices as they are.
#![tactic(auto)]

ghost use Rattle.std.specs.Prelude.{◌≡◌, ◌/◌, ◌≤◌, length};
ghost use Rattle.limits.specs.Limits.{cycle_rows, cycle_values};
ghost use Rattle.refusal.specs.Numbers.{reply_number};
ghost use Rattle.linear_pk.specs.LinearPk.{state_count};
ghost use Rattle.printout.specs.Replies.{Prints};
ghost use Rattle.rig_cycle_next.specs.NextRun.{next_read};
ghost use Rattle.rig_cycle_next.specs.NextPrintout.{cycle_printout};
ghost use Rattle.printout.specs.Cells.{printed, printed_length};
ghost use Rattle.printout.specs.Printouts.{number_into};
ghost use Rattle.rig_cycle_sheet.specs.CycleSheet.{cycle_printout_of_bytes};

use limits::{CYCLE_ROWS, CYCLE_VALUES, STATES};
use printout::{PrintReply, print_refusal, print_refused};
use rig_cycle_next::next_solved;
use rig_steady_cycle::solve_bodies;
use rows::{Rows, cells};
use sheet_kernel::{ReadSheet, read_bodies};

// The most bytes of a printout: a line of the most states, and the longer verdict.
pub const CYCLE_BYTES: usize = 68 * STATES + 11;

// Solves the cycle of a sheet in lent cells, runs one cycle more, and prints that, or the refusal of the closed one.
pub fn next_cells(
    sheet: &ReadSheet,
    amounts: &mut [f64],
    residual: &mut [f64],
    rows: &mut Rows<'_>,
    out: &mut [u8],
) -> PrintReply
    requires { (length amounts.old ≡ state_count sheet.now.kernel) × (length residual.old ≡ state_count sheet.now.kernel)
        × (cycle_rows ≤ length rows.old.times.now) × (cycle_rows ≤ length rows.old.sides.now)
        × (cycle_values ≤ length rows.old.values.now) }
    ensures { Prints (cycle_printout (next_read sheet.now)) out.old result out.new }
{
    let solved = solve_bodies(sheet, amounts, residual);
    match solved {
        Err(stop) => print_refused(stop.refusal, stop.time, out),
        Ok(_) => next_solved(sheet, amounts, residual, rows, out),
    }
}

// The same in cells of its own.
fn next_bodies(sheet: &ReadSheet, out: &mut [u8]) -> PrintReply
    ensures { Prints (cycle_printout (next_read sheet.now)) out.old result out.new }
{
    let n = sheet.kernel.state_count();
    let mut amounts = [0.0f64; STATES];
    let mut residual = [0.0f64; STATES];
    let mut times: [f64; CYCLE_ROWS] = cells();
    let mut sides: [u8; CYCLE_ROWS] = cells();
    let mut values: [f64; CYCLE_VALUES] = cells();
    let mut rows = Rows {
        times: &mut times,
        sides: &mut sides,
        values: &mut values,
    };
    next_cells(sheet, &mut amounts[..n], &mut residual[..n], &mut rows, out)
}

// The printout of a sheet's next cycle, from the front of out. Where it has no room there nothing is written, and an answer is 4.
// By its own entry: `run_sheet` and `steady_sheet` call others, and one function over the three would ask for a closure with this contract from each.
pub fn cycle_sheet(bytes: &[u8], out: &mut [u8]) -> PrintReply
    ensures reply_value { reply_number result.reply ≡ number_into out.old (cycle_printout_of_bytes bytes.now) }
    ensures length_value { result.length ≡ printed_length (cycle_printout_of_bytes bytes.now).text out.old }
    ensures out_after { out.new ≡ printed (cycle_printout_of_bytes bytes.now).text out.old }
{
    match read_bodies(bytes) {
        Err(refusal) => print_refusal(refusal, out),
        Ok(sheet) => next_bodies(&sheet, out),
    }
}
