// The parameters of a kernel.
ghost use Rattle.std.specs.Prelude.{◌≡◌, ◌≤◌, vec_len};
ghost use Rattle.refusal.specs.Numbers.{outcome_of};
ghost use Rattle.linear_pk.specs.LinearPk.{new as kernel_of};
ghost use Rattle.replay_answers.specs.Outcomes.{GivesInMemory};
ghost use Rattle.replay_answers.specs.Parameters.{parameters_of};

use crate::LineError;
use crate::words::{Words, doubles};
use linear_pk::LinearPk;
use refusal::Refusal;
use std::alloc::Global;

#[derive(Drop)]
pub struct Parameters {
    pub clearance: f64,
    pub volumes: Vec<f64>,
    pub exchanges: Vec<f64>,
    pub absorption: Option<f64>,
    ghost volumes_within: { vec_len volumes ≤ 4 },
}

impl Parameters {
    // Clearance, lists of volumes and exchanges with these rooms, depot 0 or 1, absorption.
    #[tactic(auto, using(crate::proofs::Exits::err_from_is_err_and), unfolding(crate::specs::Parameters::parameters_of, crate::specs::Words::then))]
    pub fn read(
        alloc: Global,
        words: &mut Words<'_>,
        volumes: usize,
        exchanges: usize,
    ) -> Result<Self, LineError>
        requires { volumes ≤ 4 }
        ensures { GivesInMemory (λ p. ((p.clearance, p.volumes.items, p.exchanges.items, p.absorption), words.new.rest.now)) result
            (parameters_of volumes exchanges words.old.rest.now) }
    {
        let clearance = words.double()?;
        let volumes = doubles(alloc, words.list(volumes)?)?;
        let exchanges = doubles(alloc, words.list(exchanges)?)?;
        let depot = words.at_most(1)?;
        let rate = words.double()?;
        Ok(Parameters {
            clearance,
            volumes,
            exchanges,
            absorption: (depot != 0).then_some(rate),
        })
    }

    // The kernel, or the refusal.
    pub fn made(&self) -> Result<LinearPk, Refusal>
        ensures { outcome_of result ≡ kernel_of self.now.clearance self.now.volumes.items self.now.exchanges.items self.now.absorption }
    {
        LinearPk::new(
            self.clearance,
            self.volumes.as_slice(),
            self.exchanges.as_slice(),
            self.absorption,
        )
    }

    // How many amounts a row of the kernel has.
    pub fn state_count(&self) -> usize
        ensures { result ≤ 5 }
    {
        self.volumes.len() + usize::from(self.absorption.is_some())
    }
}
