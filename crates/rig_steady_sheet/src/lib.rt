// The closed cycle of a sheet: its bytes in, the bytes of its printout out.
#![tactic(auto)]

ghost use Rattle.std.specs.Prelude.{◌≡◌};
ghost use Rattle.refusal.specs.Numbers.{reply_number};
ghost use Rattle.printout.specs.Cells.{printed, printed_length};
ghost use Rattle.printout.specs.Printouts.{number_into};
ghost use Rattle.rig_steady_sheet.specs.SteadySheet.{steady_printout_of_bytes};

use limits::STATES;
use printout::{PrintReply, print_refusal};
use refusal::Refusal;
use rig_steady_cycle::steady_bodies;
use sheet_kernel::read_bodies;

// The most bytes of a printout: amount and residual of the most states, and "max".
pub const STEADY_BYTES: usize = 34 * STATES + 21;

// The printout of a sheet's closed cycle, from the front of out. Where it has no room there nothing is written, and an answer is 4.
// By its own entry: `run_sheet` and `cycle_sheet` call others, and one function over the three would ask for a closure with this contract from each.
pub fn steady_sheet(bytes: &[u8], out: &mut [u8]) -> PrintReply
    ensures reply_value { reply_number result.reply ≡ number_into out.old (steady_printout_of_bytes bytes.now) }
    ensures length_value { result.length ≡ printed_length (steady_printout_of_bytes bytes.now).text out.old }
    ensures out_after { out.new ≡ printed (steady_printout_of_bytes bytes.now).text out.old }
{
    match read_bodies(bytes) {
        Err(refusal) => print_refusal(refusal, out),
        Ok(sheet) => steady_bodies(&sheet, out),
    }
}
