// The reader of a sheet: its kernel and its other bodies, and the tolerance of its closed cycle.
#![tactic(auto)]

ghost use Rattle.std.specs.Prelude.{◌≡◌, true, ◌+◌, ◌-◌, ◌*◌, ◌≤◌, length};
ghost use Rattle.refusal.specs.Numbers.{outcome_of, outcome_with};
ghost use Rattle.sheet_words.specs.Words.{words_of, word};
ghost use Rattle.sheet.specs.Model.{model_fits};
ghost use Rattle.sheet_kernel.specs.Values.{model_absorption, model_of};
ghost use Rattle.sheet_kernel.specs.Read.{read_kernel};
ghost use Rattle.sheet_kernel.specs.SheetWords.{words_read, read_bodies};
ghost use Rattle.sheet_kernel.specs.CycleTolerance.{tolerance_of};

mod bodies;

pub use bodies::{Bodies, ReadSheet};
use cycle::SteadyStateTolerance;
use limits::VOLUMES;
use linear_pk::LinearPk;
use refusal::Refusal;
use sheet_words::Places;

// By the part: two of its words tell it, and a `From` would have to take any bytes, also too few.
fn absorption_of(part: &[u8]) -> Option<f64>
    requires { 32 ≤ length part.now }
    ensures { result ≡ model_absorption (words_of part.now) }
{
    (sheet_words::word(part, 1) == 1).then_some(sheet_values::double(part, 2))
}

// The kernel of volumes and exchanges that are laid out in front.
fn kernel_from(part: &[u8], volumes: &mut [f64], exchange: &mut [f64]) -> Result<LinearPk, Refusal>
    requires { (length volumes.old ≡ word (words_of part.now) 3) × (length exchange.old ≡ word (words_of part.now) 3 - 1)
        × (8 * (4 + (length volumes.old + length exchange.old)) ≤ length part.now) }
    ensures { outcome_of result ≡ model_of (words_of part.now) }
{
    let count = volumes.len();
    sheet_values::doubles(part, 4, volumes);
    sheet_values::doubles(part, 4 + count, exchange);
    LinearPk::new(
        sheet_values::double(part, 0),
        volumes,
        exchange,
        absorption_of(part),
    )
}

// The kernel of a model's body.
pub fn kernel_of(part: &[u8]) -> Result<LinearPk, Refusal>
    requires { model_fits (words_of part.now) ≡ true }
    ensures { outcome_of result ≡ model_of (words_of part.now) }
{
    let count = sheet_words::word(part, 3) as usize;
    let mut volumes = [0.0f64; VOLUMES];
    let mut exchange = [0.0f64; VOLUMES - 1];
    kernel_from(part, &mut volumes[..count], &mut exchange[..count - 1])
}

// The kernel of a sheet's model, and the places of its bodies.
#[derive(Clone, Copy)]
pub struct SheetKernel {
    pub kernel: LinearPk,
    pub places: Places,
}

// A sheet, and the kernel of its model; or 40, 5, 1 or 2.
pub fn read_kernel(bytes: &[u8]) -> Result<SheetKernel, Refusal>
    ensures { outcome_of result ≡ read_kernel bytes.now }
{
    let places = sheet::read_sheet(bytes)?;
    let kernel = kernel_of(sheet::body(bytes, places.model, places.window))?;
    Ok(SheetKernel { kernel, places })
}

// A sheet, by its kernel and the other bodies; or 40, 5, 1 or 2.
pub fn read_bodies(bytes: &[u8]) -> Result<ReadSheet<'_>, Refusal>
    ensures { outcome_with words_read result ≡ read_bodies bytes.now }
{
    let read = read_kernel(bytes)?;
    let places = read.places;
    let bodies = Bodies {
        window: sheet::body(bytes, places.window, places.amounts),
        amounts: sheet::body(bytes, places.amounts, places.samples),
        samples: sheet::body(bytes, places.samples, places.events),
        events: sheet::body(bytes, places.events, places.end),
    };
    Ok(ReadSheet {
        kernel: read.kernel,
        bodies,
    })
}

// The last two words of the window.
pub fn tolerance_of(window: &[u8]) -> SteadyStateTolerance
    requires { 72 ≤ length window.now }
    ensures { result ≡ tolerance_of (words_of window.now) }
{
    SteadyStateTolerance {
        absolute: sheet_values::double(window, 7),
        relative: sheet_values::double(window, 8),
    }
}
