// One event of a cycle folded: an infusion its pieces within one period, any other event itself; 16, 17, 18, 13.
// By speed: pieces handed back as an `ArrayVec` of three made a fold 4 to 40 in a hundred slower, so the lent list has room for three.
#![tactic(auto)]

ghost use Rattle.std.specs.Prelude.{◌≡◌, ◌≤◌, ◌+◌};
ghost use Rattle.arrayvec.specs.ArrayVec.{array_vec_len};
ghost use Rattle.limits.specs.Limits.{most_events};
ghost use Rattle.protocol.specs.declared.Event.TheVariants.{Infusion};
ghost use Rattle.refusal.specs.Numbers.{result_of};
ghost use Rattle.cycle.specs.Fold.{pieces as pieces_of, time_passes, with_event};
ghost use Rattle.fold_stop.specs.Appended.{behind};

use fold_infusion::CycleInfusion;
use protocol::{Event, EventList, Window};
use refusal::Refusal;

// A cycle: its list of events, with its window.
#[derive(Clone, Copy)]
pub struct Cycle<'a> {
    pub window: Window,
    pub events: &'a [Event],
}

// Finite and in [start, end).
#[tactic(auto, unfolding(cycle::specs::Fold::time_passes))]
fn time_passes(window: Window, time: f64) -> bool
    ensures { result ≡ time_passes window time }
{
    binary64::is_finite(time) & ((window.start <= time) & (time < window.end))
}

impl Cycle<'_> {
    // The pieces of an infusion of the list, behind the list so far: 17, 18.
    #[tactic(auto, unfolding(cycle::specs::Fold::pieces))]
    pub fn infusion(
        &self,
        time: f64,
        target: usize,
        amount: f64,
        duration: f64,
        out: &mut EventList,
    ) -> Result<(), Refusal>
        requires { array_vec_len out.old + 3 ≤ most_events }
        ensures pieces { result_of result out.new.items ≡ behind out.old.items
            (pieces_of self.now.window self.now.events.now (Infusion time target amount duration)) }
        ensures room { array_vec_len out.new ≤ array_vec_len out.old + 3 }
    {
        if !fold_stop::infusion_passes(time, amount, duration) {
            return Err(Refusal::CycleInfusion);
        }
        let period = self.window.end - self.window.start;
        let until = fold_stop::stop_of(period, time, target, time + duration, self.events);
        let infusion = CycleInfusion {
            window: self.window,
            time,
            target,
            rate: amount / duration,
        };
        infusion.push_pieces(fold_stop::has_stop(target, self.events), until - time, out)
    }

    // The pieces of one event of the list, behind the list so far.
    #[tactic(auto, unfolding(cycle::specs::Fold::pieces))]
    pub fn pieces(&self, event: &Event, out: &mut EventList) -> Result<(), Refusal>
        requires { array_vec_len out.old + 3 ≤ most_events }
        ensures pieces { result_of result out.new.items ≡ behind out.old.items (pieces_of self.now.window self.now.events.now event.now) }
        ensures room { array_vec_len out.new ≤ array_vec_len out.old + 3 }
    {
        match event {
            Event::Infusion {
                time,
                target,
                amount,
                duration,
            } => self.infusion(*time, *target, *amount, *duration, out),
            Event::Bolus { .. } | Event::Reset { .. } => {
                out.push(*event);
                Ok(())
            }
        }
    }

    // One event of the list, behind the list so far: 16, 17, 18, 13.
    #[tactic(auto, unfolding(cycle::specs::Fold::with_event, cycle::specs::Fold::count_passes))]
    pub fn with_event(&self, event: &Event, out: &mut EventList) -> Result<(), Refusal>
        requires { array_vec_len out.old + 3 ≤ most_events }
        ensures folded { result_of result out.new.items ≡ with_event self.now.window self.now.events.now event.now out.old.items }
        ensures room { array_vec_len out.new ≤ array_vec_len out.old + 3 }
    {
        if !time_passes(self.window, event.time()) {
            return Err(Refusal::CycleEvent);
        }
        self.pieces(event, out)?;
        if out.len() > self.window.events {
            return Err(Refusal::EventBudget);
        }
        Ok(())
    }
}
