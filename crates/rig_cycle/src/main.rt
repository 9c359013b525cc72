// Reads a sheet on standard input to its end, starts from the amounts that solve its cycle, runs one cycle more and writes the printout of it.
#![tactic(auto)]

ghost use Rattle.std.specs.Prelude.{◌≡◌, length};
ghost use Rattle.rig_cycle_sheet.specs.CycleSheet.{cycle_printout_of_bytes, most_cycle_bytes};

use rig_cycle_sheet::CYCLE_BYTES;
use rig_streams::Program;

struct RigCycle;

impl Program<CYCLE_BYTES> for RigCycle {
    ghost text = { λ bytes. (cycle_printout_of_bytes bytes).text };

    fn name() -> &'static str {
        "rig-cycle"
    }

    // By the trait: what a program prints is all that it has of its own.
    fn print(sheet: &[u8], out: &mut [u8; CYCLE_BYTES]) -> usize {
        rig_cycle_sheet::cycle_sheet(sheet, out).length
    }
}

// Room for any printout.
fn output() -> [u8; CYCLE_BYTES]
    ensures { most_cycle_bytes ≡ length result }
{
    [0; CYCLE_BYTES]
}

// By program: each has a `main`, and lends the cells for its own printout.
fn main(rt: HostRuntime) {
    let mut text = output();
    rig_streams::run::<RigCycle, _>(&rt, &mut text)
}
