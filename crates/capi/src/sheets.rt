// The C interface of a sheet.
// By the C interface: a C program calls each entry by its own name, and the body has nothing but the call and its two answers.
ghost use Rattle.std.specs.Prelude.{◌≡◌};
ghost use Rattle.printout.specs.Cells.{printed, printed_length};
ghost use Rattle.rig_run_printout.specs.Rig.{printout_of_bytes, number_into};

#[unsafe(no_mangle)]
pub extern "C" fn rig_run_sheet(sheet: &[u8], out: &mut [u8], length: &mut usize) -> u64
    ensures value { result ≡ number_into out.old (printout_of_bytes sheet.now) }
    ensures length_after { length.new ≡ printed_length (printout_of_bytes sheet.now).text out.old }
    ensures out_after { out.new ≡ printed (printout_of_bytes sheet.now).text out.old }
{
    let printout = rig_run_printout::run_sheet(sheet, out);
    *length = printout.length;
    let reply = printout.reply;
    refusal::number(reply)
}
