// The closed cycle of a sheet that is read, and its printout.
#![tactic(auto)]

ghost use Rattle.std.specs.Prelude.{◌≡◌, ◌/◌, length};
ghost use Rattle.linear_pk.specs.LinearPk.{state_count};
ghost use Rattle.periodic_acceptance.specs.Entry.{steady_reply};
ghost use Rattle.rig_steady_cycle.specs.SheetCycle.{steady_read};
ghost use Rattle.periodic_acceptance.specs.Replies.{SteadyAnswer};
ghost use Rattle.printout.specs.Replies.{Prints};
ghost use Rattle.printout_steady.specs.SteadyReplies.{steady_printout};

use limits::{SAMPLES, STATES};
use periodic_acceptance::Stop;
use printout::PrintReply;
use printout_steady::{PrintedStates, print_reply};
use rows::cells;
use sheet::Part;
use sheet_kernel::{ReadSheet, tolerance_of};

// The closed cycle of a sheet, into slices of as many cells as its kernel has states.
pub fn solve_bodies(
    sheet: &ReadSheet,
    amounts: &mut [f64],
    residual: &mut [f64],
) -> Result<f64, Stop>
    requires { (length amounts.old ≡ state_count sheet.now.kernel) × (length residual.old ≡ state_count sheet.now.kernel) }
    ensures { SteadyAnswer (steady_read sheet.now) (steady_reply result) amounts.old residual.old amounts.new residual.new }
{
    let bodies = sheet.bodies;
    let count = bodies.samples.len() / 8;
    let mut held: [f64; SAMPLES] = cells();
    let readings = &mut held[..count];
    sheet_values::doubles(bodies.samples, 0, readings);
    let list = events_layout::events_of(Part(bodies.events));
    let span = sheet_values::window_of(bodies.window);
    let tolerance = tolerance_of(bodies.window);
    periodic::periodic_steady_state(
        sheet.kernel,
        span,
        list.as_slice(),
        readings,
        tolerance,
        amounts,
        residual,
    )
}

// Solves the cycle in cells of its own and prints the answer.
pub fn steady_bodies(sheet: &ReadSheet, out: &mut [u8]) -> PrintReply
    ensures { Prints (steady_printout (steady_read sheet.now)) out.old result out.new }
{
    let n = sheet.kernel.state_count();
    let mut solution = [0.0f64; STATES];
    let mut change = [0.0f64; STATES];
    let amounts = &mut solution[..n];
    let residual = &mut change[..n];
    let reply = solve_bodies(sheet, amounts, residual);
    let solved = PrintedStates {
        n,
        amounts,
        residual,
    };
    print_reply(reply, &solved, out)
}
