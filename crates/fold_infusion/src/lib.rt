// An infusion up to its stop: whole periods unless a reset stops the infusions on its target, head and tail, behind a list.
#![tactic(auto)]

ghost use Rattle.std.specs.Prelude.{◌≡◌, [], ◌≤◌, ◌+◌, ◌++◌};
ghost use Rattle.std.specs.Float.Ieee.{lt};
ghost use Rattle.arrayvec.specs.ArrayVec.{array_vec_len};
ghost use Rattle.limits.specs.Limits.{most_events};
ghost use Rattle.binary64.specs.Doubles.{plus_zero};
ghost use Rattle.binary64.specs.Lists.{pick};
ghost use Rattle.refusal.specs.Numbers.{result_of};
ghost use Rattle.cycle.specs.Fold.{piece as piece_of, parts as parts_of, whole_periods as wholePeriodsOf, infusion_pieces as pieces_of};
ghost use Rattle.fold_stop.specs.Appended.{behind};

use protocol::{Event, EventList, Window};
use refusal::Refusal;

// An infusion of a cycle, at its rate.
#[derive(Clone, Copy)]
pub struct CycleInfusion {
    pub window: Window,
    pub time: f64,
    pub target: usize,
    pub rate: f64,
}

impl CycleInfusion {
    // Of the rate over the duration, at the time.
    fn piece(&self, time: f64, duration: f64) -> Event
        ensures { result ≡ piece_of time self.now.target self.now.rate duration }
    {
        Event::Infusion {
            time,
            target: self.target,
            amount: self.rate * duration,
            duration,
        }
    }

    // What the head leaves, at the start of the cycle, if above 0.
    fn push_tail(&self, duration: f64, out: &mut EventList)
        requires { array_vec_len out.old + 1 ≤ most_events }
        ensures tail { out.new.items ≡ out.old.items ++ pick (lt plus_zero duration)
            (piece_of self.now.window.start self.now.target self.now.rate duration) [] }
        ensures room { array_vec_len out.new ≤ array_vec_len out.old + 1 }
    {
        if 0.0 < duration {
            out.push(self.piece(self.window.start, duration));
        }
    }

    // Head and tail of what is left, each only if above 0.
    #[tactic(auto, unfolding(cycle::specs::Fold::parts))]
    pub fn push_parts(&self, left: f64, out: &mut EventList)
        requires { array_vec_len out.old + 2 ≤ most_events }
        ensures parts { out.new.items ≡ out.old.items ++ parts_of self.now.window self.now.time self.now.target self.now.rate left }
        ensures room { array_vec_len out.new ≤ array_vec_len out.old + 2 }
    {
        if 0.0 < left {
            let head = binary64_order::min(left, self.window.end - self.time);
            out.push(self.piece(self.time, head));
            self.push_tail(left - head, out);
        }
    }

    // The whole periods, if there is one, then head and tail of the remainder.
    #[tactic(auto, unfolding(cycle::specs::Fold::whole_periods))]
    pub fn push_whole_periods(&self, left: f64, periods: f64, out: &mut EventList)
        requires { array_vec_len out.old + 3 ≤ most_events }
        ensures whole_periods { out.new.items ≡ out.old.items
            ++ wholePeriodsOf self.now.window self.now.time self.now.target self.now.rate left periods }
        ensures room { array_vec_len out.new ≤ array_vec_len out.old + 3 }
    {
        if 1.0 <= periods {
            let period = self.window.end - self.window.start;
            out.push(Event::Infusion {
                time: self.window.start,
                target: self.target,
                amount: (self.rate * period) * periods,
                duration: period,
            });
            self.push_parts(binary64_remainder::remainder(left, period), out);
        } else {
            self.push_parts(left, out);
        }
    }

    // No whole periods where a reset stops the target's infusions; else 18 where their count is not finite.
    #[tactic(auto, unfolding(cycle::specs::Fold::infusion_pieces))]
    pub fn push_pieces(&self, stops: bool, left: f64, out: &mut EventList) -> Result<(), Refusal>
        requires { array_vec_len out.old + 3 ≤ most_events }
        ensures pieces { result_of result out.new.items ≡ behind out.old.items
            (pieces_of stops self.now.window self.now.time self.now.target self.now.rate left) }
        ensures room { array_vec_len out.new ≤ array_vec_len out.old + 3 }
    {
        if stops {
            self.push_parts(left, out);
            return Ok(());
        }
        let period = self.window.end - self.window.start;
        let periods = binary64_bits::floor(left / period);
        if !binary64::is_finite(periods) {
            return Err(Refusal::Overlap);
        }
        self.push_whole_periods(left, periods, out);
        Ok(())
    }
}
