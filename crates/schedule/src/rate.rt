// A rate within the limits of a set.
ghost use Rattle.std.specs.Prelude.{◌≡◌, ◌≤◌, false, MatchOption};
ghost use Rattle.schedule.specs.Time.{min_rate, max_rate};
ghost use Rattle.schedule.specs.Rate.{is_rate};

use crate::{MAX_RATE, MIN_RATE};

#[derive(Clone, Copy)]
pub struct Rate {
    pub hertz: u32,
    pub ghost slow: { min_rate ≤ hertz },
    pub ghost fast: { hertz ≤ max_rate },
}

impl Rate {
    // None outside the limits.
    pub fn new(hertz: u32) -> Option<Rate>
        ensures { MatchOption result (is_rate hertz ≡ false) (λ rate. rate.hertz ≡ hertz) }
    {
        if (MIN_RATE..=MAX_RATE).contains(&hertz) {
            Some(Rate { hertz })
        } else {
            None
        }
    }
}
