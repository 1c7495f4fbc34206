//! Which inode numbers are taken.

use layout::{FIRST_NUMBER, is_taken};

/// The inode map in memory: a bit for each inode number, set where the number is taken.
#[derive(Debug, Drop)]
pub struct Numbers {
    bytes: Vec<u8>,
    /// How many inode numbers there are.
    inodes: u32,
    /// No number from the first on to this one is free.
    least: u32,
    ghost size: { vec_len bytes ≡ div_ceil inodes 8 },
    ghost low: { 4 ≤ least },
    ghost high: { least ≤ inodes },
    ghost full: { (k : ℕ) → 4 ≤ k → k < least → IsTaken bytes.items k },
}

ghost use Rattle.std.specs.Prelude.{◌≡◌, ◌≢◌, ◌↔◌, ℕ, ◌*◌, ◌≤◌, ◌<◌, IsTrue, IfSome, IfNone, length, vec_len};
ghost use Rattle.std.specs.Int.{div_ceil};
ghost use Rattle.layout.specs.Maps.{IsTaken};
ghost use Rattle.model.specs.Counting.{Counts};

impl Numbers {
    /// The numbers that this inode map tells, of so many inodes.
    pub fn new(bytes: Vec<u8>, inodes: u32) -> Numbers
        requires size { vec_len bytes ≡ div_ceil inodes 8 }
        requires some { FIRST_NUMBER ≤ inodes }
        ensures bytes { result.bytes.items ≡ bytes.items }
        ensures inodes { result.inodes ≡ inodes }
    {
        Numbers {
            bytes,
            inodes,
            least: FIRST_NUMBER,
        }
    }

    /// The bytes of the inode map.
    pub fn bytes(&self) -> &[u8]
        ensures { result.now ≡ self.now.bytes.items }
    {
        self.bytes.as_slice()
    }

    /// Whether a number is taken.
    pub fn is_taken(&self, number: u32) -> bool
        requires { number < self.now.inodes }
        ensures { IsTrue result ↔ IsTaken self.now.bytes.items number }
    {
        is_taken(&self.bytes, number)
    }

    /// How many numbers from the first on are taken.
    pub fn count_taken(&self) -> u32
        ensures counts { Counts (λ n. (FIRST_NUMBER ≤ n) × (n < self.now.inodes)
            × IsTaken self.now.bytes.items n) result }
        ensures few { result < u32.MAX }
    {
        let mut count = 0;
        for number in FIRST_NUMBER..self.inodes {
            if self.is_taken(number) {
                count += 1;
            }
        }
        count
    }

    /// Takes a number, or sets it free.
    pub fn set(&mut self, number: u32, taken: bool)
        requires low { FIRST_NUMBER ≤ number }
        requires high { number < self.old.inodes }
        ensures inodes { self.new.inodes ≡ self.old.inodes }
        ensures here { IsTaken self.new.bytes.items number ↔ IsTrue taken }
        ensures others { (k : ℕ) → (k ≢ number) →
            (IsTaken self.new.bytes.items k ↔ IsTaken self.old.bytes.items k) }
    {
        let bit = 1u8 << (number % 8);
        let at = (number / 8) as usize;
        if taken {
            self.bytes[at] |= bit;
        } else {
            self.least = self.least.min(number);
            self.bytes[at] &= !bit;
        }
    }

    /// Takes an object's number, or sets it free. The file system's own numbers stay taken.
    pub fn note(&mut self, number: u32, taken: bool)
        requires { number < self.old.inodes }
        ensures inodes { self.new.inodes ≡ self.old.inodes }
        ensures here { FIRST_NUMBER ≤ number →
            (IsTaken self.new.bytes.items number ↔ IsTrue taken) }
        ensures own { number < FIRST_NUMBER →
            (IsTaken self.new.bytes.items number ↔ IsTaken self.old.bytes.items number) }
        ensures others { (k : ℕ) → (k ≢ number) →
            (IsTaken self.new.bytes.items k ↔ IsTaken self.old.bytes.items k) }
    {
        if FIRST_NUMBER <= number {
            self.set(number, taken);
        }
    }

    /// The least number from the first on that is free; None where all are taken.
    pub fn next_free(&self) -> Option<u32>
        ensures within { IfSome result (λ n. (FIRST_NUMBER ≤ n) × (n < self.now.inodes)) }
        ensures free { IfSome result (λ n. IsTaken self.now.bytes.items n → ⊥) }
        ensures least { IfSome result (λ n. (k : ℕ) → FIRST_NUMBER ≤ k → k < n →
            IsTaken self.now.bytes.items k) }
        ensures none { IfNone result ((k : ℕ) → FIRST_NUMBER ≤ k → k < self.now.inodes →
            IsTaken self.now.bytes.items k) }
    {
        let next = first_free(&self.bytes, self.least, self.inodes);
        if next < self.inodes { Some(next) } else { None }
    }

    /// The same, where the next search begins then.
    pub fn least_free(&mut self) -> Option<u32>
        ensures bytes { self.new.bytes.items ≡ self.old.bytes.items }
        ensures inodes { self.new.inodes ≡ self.old.inodes }
        ensures within { IfSome result (λ n. (FIRST_NUMBER ≤ n) × (n < self.old.inodes)) }
        ensures free { IfSome result (λ n. IsTaken self.old.bytes.items n → ⊥) }
        ensures least { IfSome result (λ n. (k : ℕ) → FIRST_NUMBER ≤ k → k < n →
            IsTaken self.old.bytes.items k) }
        ensures none { IfNone result ((k : ℕ) → FIRST_NUMBER ≤ k → k < self.old.inodes →
            IsTaken self.old.bytes.items k) }
    {
        let next = self.next_free();
        self.least = next.unwrap_or(self.inodes);
        next
    }
}

// The first number that is free from one to another, or that other one.
fn first_free(bytes: &[u8], from: u32, to: u32) -> u32
    requires size { to ≤ 8 * length bytes.now }
    requires order { from ≤ to }
    ensures from { from ≤ result }
    ensures to { result ≤ to }
    ensures taken { (k : ℕ) → from ≤ k → k < result → IsTaken bytes.now k }
    ensures free { result < to → IsTaken bytes.now result → ⊥ }
{
    for number in from..to {
        if !is_taken(bytes, number) {
            return number;
        }
    }
    to
}
