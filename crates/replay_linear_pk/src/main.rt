// Replays stored answers against the library. Standard input has a line for each call, in the layout of reference/README.md, with the reference's
// answer; a line that starts with '#' is a comment. Prints how often each entry gave each reply, and how many answers differ.
#![tactic(auto)]

mod replay;

use replay::Entry;

fn main(rt: HostRuntime) {
    let entries = [Entry::New, Entry::Advance, Entry::Concentrations];
    replay_answers::replay_entries(&rt, &entries, replay::replay);
}
