// What is read of a sheet.
ghost use Rattle.std.specs.Prelude.{◌≡◌};
ghost use Rattle.refusal.specs.Result.{done};
ghost use Rattle.linear_pk.specs.LinearPk.{sound};
ghost use Rattle.sheet.specs.Readable.{Readable};

use linear_pk::LinearPk;

// The bodies beside the model, as their readers ask them.
#[derive(Clone, Copy)]
pub struct Bodies<'a> {
    pub window: &'a [u8],
    pub amounts: &'a [u8],
    pub samples: &'a [u8],
    pub events: &'a [u8],
    ghost readable: { Readable window.now samples.now events.now },
}

// The kernel of a sheet's model, which passes its own test, and the other bodies.
#[derive(Clone, Copy)]
pub struct ReadSheet<'a> {
    pub kernel: LinearPk,
    pub bodies: Bodies<'a>,
    ghost sound: { sound kernel ≡ done kernel },
}
