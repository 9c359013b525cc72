// Reads a sheet on standard input to its end and writes its printout.
#![tactic(auto)]

ghost use Rattle.std.specs.Prelude.{◌≡◌, length};
ghost use Rattle.rig_run_printout.specs.Rig.{printout_of_bytes, most_bytes};

use rig_run_printout::RUN_BYTES;
use rig_streams::Program;

struct RigRun;

impl Program<RUN_BYTES> for RigRun {
    ghost text = { λ bytes. (printout_of_bytes bytes).text };

    fn name() -> &'static str {
        "rig-run"
    }

    // By the trait: what a program prints is all that it has of its own.
    fn print(sheet: &[u8], out: &mut [u8; RUN_BYTES]) -> usize {
        rig_run_printout::run_sheet(sheet, out).length
    }
}

// Room for any printout.
fn output() -> [u8; RUN_BYTES]
    ensures { most_bytes ≡ length result }
{
    [0; RUN_BYTES]
}

// By program: each has a `main`, and lends the cells for its own printout.
fn main(rt: HostRuntime) {
    let mut text = output();
    rig_streams::run::<RigRun, _>(&rt, &mut text)
}
