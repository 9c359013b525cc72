// The sum of the doses of a list of events.
#![tactic(auto)]

ghost use Rattle.std.specs.Prelude.{◌≡◌};
ghost use Rattle.events_layout.specs.Layout.{events_of};
ghost use Rattle.sheet_events.specs.OrderedDoses.{plus_dose, ordered as orderedOf};

use events_layout::Words;
use limits::EVENT_SIZE;
use protocol::Event;

#[tactic(auto, unfolding(crate::specs::OrderedDoses::plus_dose))]
fn plus_dose(sum: f64, event: Event) -> f64
    ensures { result ≡ plus_dose sum event }
{
    match event {
        Event::Bolus { amount, .. } => sum + amount,
        Event::Infusion { amount, .. } => sum + amount,
        Event::Reset { .. } => sum,
    }
}

// +0 plus all dose amounts in list order, of the whole events in the words.
pub fn ordered<W: Words + Copy>(words: W) -> f64
    ensures { result ≡ orderedOf (events_of (W.words words)) }
{
    let mut sum = 0.0f64;
    // By index: words lend no slice of events; event i is read from its six words.
    for i in 0..words.count() / EVENT_SIZE {
        sum = plus_dose(sum, events_layout::event_of(words, i));
    }
    sum
}
