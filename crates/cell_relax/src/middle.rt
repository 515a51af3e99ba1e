// Halving an interval of heads.
ghost use Rattle.std.specs.Prelude.{◌+◌, pos, ◌+ℤ◌, ◌<ℤ◌};
ghost use Rattle.step_problem.specs.{IsMagnitudeAtMost, head_limit};

/// A number strictly between two that are not neighbours.
pub fn middle_of(low: i64, high: i64) -> i64
    requires low { IsMagnitudeAtMost low (head_limit + 1) }
    requires high { IsMagnitudeAtMost high (head_limit + 1) }
    requires apart { (low +ℤ pos 1) <ℤ high }
    ensures above { low <ℤ result }
    ensures below { result <ℤ high }
{
    low + (high - low) / 2
}

// The next trial of a search for a relaxed head, by the slopes of the balance seen so far.

// The number of trials by slopes; later trials halve the interval.
const BY_SLOPES: u32 = 16;

/// What trials have shown of a balance that falls as a head moves. No result of a search depends on it,
/// only the number of trials.
#[derive(Clone, Copy)]
pub struct Trend {
    trials: u32,
    // The balance at the head reached.
    balance: i128,
    // Its fall per unit, from there to the last trial.
    fall: i128,
}

// The fall per unit, for a fall over `units` units.
fn fall_of_each(fall: i128, units: i64) -> i128 {
    if units == 1 {
        return fall;
    }
    fall.checked_div(units as i128).unwrap_or(0)
}

impl Trend {
    /// Before the first trial.
    pub fn new() -> Trend {
        Trend {
            trials: 0,
            balance: 0,
            fall: 0,
        }
    }

    /// After one more trial, `units` units further, with this balance. The search moves to a head whose balance
    /// is not negative.
    pub fn after(self, units: i64, balance: i128) -> Trend {
        Trend {
            trials: self.trials.saturating_add(1),
            balance: if balance >= 0 { balance } else { self.balance },
            fall: fall_of_each(self.balance.saturating_sub(balance), units),
        }
    }

    // After how many units the balance is 0 if it keeps falling as it did. Every second trial is at the next head,
    // to see the slope there; so are the first two, before which no slope is known.
    fn units_on(self) -> i64 {
        if self.trials < 2 || self.trials % 2 == 1 {
            return 1;
        }
        let units = self.balance.checked_div(self.fall).unwrap_or(1);
        i64::try_from(units).unwrap_or(1)
    }

    /// The next trial: a number strictly between two that are not neighbours.
    pub fn next(self, reached: i64, beyond: i64) -> i64
        requires reached { IsMagnitudeAtMost reached (head_limit + 1) }
        requires beyond { IsMagnitudeAtMost beyond (head_limit + 1) }
        requires apart { (reached +ℤ pos 1) <ℤ beyond }
        ensures above { reached <ℤ result }
        ensures below { result <ℤ beyond }
    {
        if self.trials >= BY_SLOPES {
            return middle_of(reached, beyond);
        }
        let far = reached.saturating_add(self.units_on());
        if reached < far && far < beyond {
            far
        } else {
            reached + 1
        }
    }
}
