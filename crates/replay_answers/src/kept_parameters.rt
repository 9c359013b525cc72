// The parameters of a kernel in arrays of fixed room, with no heap.
ghost use Rattle.std.specs.Prelude.{◌≡◌, ◌≤◌, ◌+◌};
ghost use Rattle.refusal.specs.Numbers.{outcome_of};
ghost use Rattle.linear_pk.specs.LinearPk.{new as kernel_of};
ghost use Rattle.replay_answers.specs.Outcomes.{Gives};
ghost use Rattle.replay_answers.specs.Parameters.{parameters_of};

use crate::LineError;
use crate::kept::kept_doubles;
use crate::words::Words;
use arrayvec::ArrayVec;
use linear_pk::LinearPk;
use refusal::Refusal;

// With room for V volumes and E exchanges.
#[derive(Drop)]
pub struct KeptParameters<const V: usize, const E: usize> {
    pub clearance: f64,
    pub volumes: ArrayVec<f64, V>,
    pub exchanges: ArrayVec<f64, E>,
    pub absorption: Option<f64>,
}

impl<const V: usize, const E: usize> KeptParameters<V, E> {
    // Clearance, lists of volumes and exchanges with these rooms, depot 0 or 1, absorption.
    #[tactic(auto, using(crate::proofs::Exits::err_from_is_err_and), unfolding(crate::specs::Parameters::parameters_of, crate::specs::Words::then))]
    pub fn read(words: &mut Words<'_>) -> Result<Self, LineError>
        ensures { Gives (λ p. ((p.clearance, p.volumes.items, p.exchanges.items, p.absorption), words.new.rest.now)) result
            (parameters_of V E words.old.rest.now) }
    {
        let clearance = words.double()?;
        let volumes = kept_doubles(words.list(V)?);
        let exchanges = kept_doubles(words.list(E)?);
        let depot = words.at_most(1)?;
        let rate = words.double()?;
        Ok(KeptParameters {
            clearance,
            volumes,
            exchanges,
            absorption: (depot != 0).then_some(rate),
        })
    }

    // The kernel, or the refusal.
    pub fn made(&self) -> Result<LinearPk, Refusal>
        ensures { outcome_of result ≡ kernel_of self.now.clearance self.now.volumes.items self.now.exchanges.items self.now.absorption }
    {
        LinearPk::new(
            self.clearance,
            self.volumes.as_slice(),
            self.exchanges.as_slice(),
            self.absorption,
        )
    }

    // How many amounts a row of the kernel has.
    pub fn state_count(&self) -> usize
        ensures { result ≤ V + 1 }
    {
        self.volumes
            .len()
            .saturating_add(usize::from(self.absorption.is_some()))
    }
}
