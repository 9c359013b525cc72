// Replays stored sheets against the library. Standard input has a line for each sheet, in the layout of reference/README.md, with the printout
// over the reference; a line that starts with '#' is a comment. Prints how often each number was given, and how many printouts differ.
#![tactic(auto)]

mod replay;

use replay::Entry;

fn main(rt: HostRuntime) {
    let entries = [Entry::RunSheet, Entry::SteadySheet];
    replay_answers::replay_entries(&rt, &entries, replay::replay);
}
