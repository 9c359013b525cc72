// Replays stored runs against the library. Standard input has a line for each run, in the layout of reference/README.md, with the reference's
// answer; a line that starts with '#' is a comment. Prints how often each reply was given, and how many answers differ.
#![tactic(auto)]

mod cells;
mod replay;

use replay::Simulate;

fn main(rt: HostRuntime) {
    replay_answers::replay_entries(&rt, &[Simulate], replay::replay);
}
