// What a run replies, and its reply as numbers.
#![tactic(auto)]

ghost use Rattle.std.specs.Prelude.{◌≡◌};
ghost use Rattle.simulation_report.specs.Replies.{run_reply, refused_ahead, reported};

use refusal::Refusal;

// A run that reached the post row at the end.
#[derive(Clone, Copy)]
pub struct Reached {
    pub rows: usize,
    pub advances: u64,
}

// By errors: a run that has no end was refused ahead of it, or stopped on its way.
#[derive(Clone, Copy)]
pub enum RunError {
    // Refused ahead of the run.
    Refused(Refusal),
    // Stopped by a refusal at a time; the advances made, the refused one counted.
    Stopped {
        refusal: Refusal,
        time: f64,
        advances: u64,
    },
}

impl From<Refusal> for RunError {
    ghost from_gives = { λ r e. e ≡ refused_ahead r };

    fn from(refusal: Refusal) -> RunError {
        RunError::Refused(refusal)
    }
}

// A reply as numbers, for C and for stored answers; 0 is the number of a run that reached its end.
#[derive(Clone, Copy)]
pub struct Report {
    // By number: C is given it.
    pub number: u64,
    pub time: f64,
    pub rows: usize,
    pub advances: u64,
}

impl From<Result<Reached, RunError>> for Report {
    ghost from_gives = { λ r s. reported s ≡ run_reply r };

    fn from(reply: Result<Reached, RunError>) -> Report {
        match reply {
            Ok(Reached { rows, advances }) => Report {
                number: 0,
                time: 0.0,
                rows,
                advances,
            },
            Err(RunError::Refused(ahead)) => Report {
                number: ahead.into(),
                time: 0.0,
                rows: 0,
                advances: 0,
            },
            Err(
                RunError::Stopped {
                    refusal,
                    time,
                    advances,
                },
            ) => Report {
                number: refusal.into(),
                time,
                rows: 0,
                advances,
            },
        }
    }
}
