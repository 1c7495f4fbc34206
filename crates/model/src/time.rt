//! A time, as POSIX.1-2017 has it in `struct timespec`.

ghost use Rattle.std.specs.Prelude.{◌≡◌, ℕ, ◌≤◌, IsSome, IfSome, ◌↔◌};
ghost use Rattle.model.specs.declared.limits.TheConstants.{MOST_NANOSECONDS};

use crate::MOST_NANOSECONDS;
use std::marker::Model;

/// So many nanoseconds of a second.
#[derive(Clone, Copy, Debug, PartialEq, Eq)]
pub struct Nanoseconds {
    count: u32,
}

impl Model for Nanoseconds {
    ghost Value = { ℕ };

    ghost view = { λ n. n.count };

    ghost invariant = { λ n. n.count ≤ MOST_NANOSECONDS };

    ghost inverse = { λ n. record { count = n } };
}

impl Nanoseconds {
    /// So many; None above 999,999,999.
    pub fn new(count: u32) -> Option<Nanoseconds>
        ensures fits { IsSome result ↔ (count ≤ MOST_NANOSECONDS) }
        ensures value { IfSome result (λ n. n ≡ count) }
    {
        if count <= MOST_NANOSECONDS {
            Some(Nanoseconds { count })
        } else {
            None
        }
    }

    /// How many they are, to 999,999,999.
    pub fn count(self) -> u32
        ensures same { result ≡ self }
        ensures fits { result ≤ MOST_NANOSECONDS }
    {
        self.count
    }
}

/// A time: seconds from the Epoch on, which may be below zero, and nanoseconds behind them.
#[derive(Clone, Copy, Debug, PartialEq, Eq)]
pub struct Time {
    pub seconds: i64,
    pub nanoseconds: Nanoseconds,
}

impl Time {
    ghost use Rattle.std.specs.Prelude.{◌≡◌, ◌↔◌, IsTrue};
    ghost use Rattle.model.specs.Attributes.{IsTime, epoch};

    /// The Epoch: what an object shows that has no time.
    pub fn epoch() -> Time
        ensures { result ≡ epoch }
    {
        Time {
            seconds: 0,
            nanoseconds: Nanoseconds::new(0).unwrap(),
        }
    }

    /// Its types hold it to its limits. It does nothing.
    pub fn fits(self)
        ensures { IsTime self }
    {
        let _ = self.nanoseconds.count();
    }

    /// Whether it is the Epoch.
    pub fn is_epoch(self) -> bool
        ensures { IsTrue result ↔ (self ≡ epoch) }
    {
        self.seconds == 0 && self.nanoseconds.count() == 0
    }
}
