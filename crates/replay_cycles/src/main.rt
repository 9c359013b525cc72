// Replays stored folds against the library. Standard input has a line for each cycle, in the layout of reference/README.md, with the reference's
// answer; a line that starts with '#' is a comment. Prints how often each reply was given, and how many answers differ.
#![tactic(auto)]

mod replay;

use replay::Fold;

fn main(rt: HostRuntime) {
    replay_answers::replay_entries(&rt, &[Fold], replay::replay);
}
