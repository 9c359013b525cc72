// Reads a sheet on standard input to its end and writes the printout of its closed cycle.
#![tactic(auto)]

ghost use Rattle.std.specs.Prelude.{◌≡◌, length};
ghost use Rattle.rig_steady_sheet.specs.SteadySheet.{steady_printout_of_bytes, most_steady_bytes};

use rig_steady_sheet::STEADY_BYTES;
use rig_streams::Program;

struct RigSteady;

impl Program<STEADY_BYTES> for RigSteady {
    ghost text = { λ bytes. (steady_printout_of_bytes bytes).text };

    fn name() -> &'static str {
        "rig-steady"
    }

    // By the trait: what a program prints is all that it has of its own.
    fn print(sheet: &[u8], out: &mut [u8; STEADY_BYTES]) -> usize {
        rig_steady_sheet::steady_sheet(sheet, out).length
    }
}

// Room for any printout.
fn output() -> [u8; STEADY_BYTES]
    ensures { most_steady_bytes ≡ length result }
{
    [0; STEADY_BYTES]
}

// By program: each has a `main`, and lends the cells for its own printout.
fn main(rt: HostRuntime) {
    let mut text = output();
    rig_streams::run::<RigSteady, _>(&rt, &mut text)
}
