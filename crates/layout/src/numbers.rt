//! Numbers that must not be mixed.

ghost use Rattle.std.specs.Prelude.{◌≡◌, ℕ, ◌+◌, ◌≤◌, ◌<◌, ◌^◌, IsSome, IfSome, ◌↔◌};

use std::marker::Model;

/// The generation that an image is made with, and the first order of a snapshot.
pub const FIRST_GENERATION: u64 = 1;
/// The last generation of a root, and the last order of a snapshot.
pub const LAST_GENERATION: u64 = (1 << 62) - 1;

/// The number of an inode.
#[derive(Clone, Copy, Debug)]
pub struct InodeNumber {
    number: u32,
}

impl Model for InodeNumber {
    ghost Value = { ℕ };

    ghost view = { λ n. n.number };

    ghost inverse = { λ n. record { number = n } };
}

impl InodeNumber {
    pub fn new(number: u32) -> InodeNumber
        ensures { result ≡ number }
    {
        InodeNumber { number }
    }

    pub fn get(self) -> u32
        ensures { result ≡ self }
    {
        self.number
    }
}

/// The number of a block of the disk.
#[derive(Clone, Copy, Debug, PartialEq, Eq)]
pub struct BlockNumber {
    number: u32,
}

impl Model for BlockNumber {
    ghost Value = { ℕ };

    ghost view = { λ n. n.number };

    ghost inverse = { λ n. record { number = n } };
}

impl BlockNumber {
    pub fn new(number: u32) -> BlockNumber
        ensures { result ≡ number }
    {
        BlockNumber { number }
    }

    pub fn get(self) -> u32
        ensures { result ≡ self }
    {
        self.number
    }
}

/// The generation of a root, from 1 to 2^62 - 1.
#[derive(Clone, Copy, Debug)]
pub struct Generation {
    number: u64,
}

impl Model for Generation {
    ghost Value = { ℕ };

    ghost view = { λ g. g.number };

    ghost invariant = { λ g. (1 ≤ g.number) × (g.number < 2 ^ 62) };

    ghost inverse = { λ n. record { number = n } };
}

impl Generation {
    /// The generation that an image is made with.
    pub const FIRST: Generation = Generation {
        number: FIRST_GENERATION,
    };

    /// The generation of this number; None for 0 and from 2^62 on.
    pub fn new(number: u64) -> Option<Generation>
        ensures within { IsSome result ↔ ((1 ≤ number) × (number < 2 ^ 62)) }
        ensures value { IfSome result (λ g. g ≡ number) }
    {
        if FIRST_GENERATION <= number && number <= LAST_GENERATION {
            Some(Generation { number })
        } else {
            None
        }
    }

    pub fn get(self) -> u64
        ensures value { result ≡ self }
        ensures within { (1 ≤ result) × (result < 2 ^ 62) }
    {
        self.number
    }

    /// The epoch that stands this many behind the generation.
    pub fn epoch_after(self, count: u32) -> Epoch
        ensures { result ≡ self + count }
    {
        Epoch {
            number: self.number + u64::from(count),
        }
    }
}

/// The number of an epoch of the log: a root of generation g covers all epochs to g.
#[derive(Clone, Copy, Debug, PartialEq, Eq)]
pub struct Epoch {
    number: u64,
}

impl Model for Epoch {
    ghost Value = { ℕ };

    ghost view = { λ e. e.number };

    ghost inverse = { λ n. record { number = n } };
}

impl Epoch {
    pub fn new(number: u64) -> Epoch
        ensures { result ≡ number }
    {
        Epoch { number }
    }

    pub fn get(self) -> u64
        ensures { result ≡ self }
    {
        self.number
    }
}
