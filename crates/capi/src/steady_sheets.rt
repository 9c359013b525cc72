// The C interface of the closed cycle of a sheet.
// By the C interface: a C program calls each entry by its own name, and the body has nothing but the call and its two answers.
ghost use Rattle.std.specs.Prelude.{◌≡◌};
ghost use Rattle.printout.specs.Cells.{printed, printed_length};
ghost use Rattle.printout.specs.Printouts.{number_into};
ghost use Rattle.rig_steady_sheet.specs.SteadySheet.{steady_printout_of_bytes};

#[unsafe(no_mangle)]
pub extern "C" fn rig_steady_sheet(sheet: &[u8], out: &mut [u8], length: &mut usize) -> u64
    ensures value { result ≡ number_into out.old (steady_printout_of_bytes sheet.now) }
    ensures length_after { length.new ≡ printed_length (steady_printout_of_bytes sheet.now).text out.old }
    ensures out_after { out.new ≡ printed (steady_printout_of_bytes sheet.now).text out.old }
{
    let printout = rig_steady_sheet::steady_sheet(sheet, out);
    *length = printout.length;
    let reply = printout.reply;
    refusal::number(reply)
}
