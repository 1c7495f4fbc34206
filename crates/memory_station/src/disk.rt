//! The disk of a station in memory.

ghost use Rattle.std.specs.Prelude.{◌≡◌, ℕ, ◌+◌, ◌*◌, ◌%◌, ◌≤◌, ◌==◌, ◌||◌, true, length, vec_len, vec_capacity, All, if◌then◌else◌, IfOk, OnOk};
ghost use Rattle.std.specs.List.Sorted.{IsStrictlyIncreasing};
ghost use Rattle.station.specs.Images.{Tells, disk_with, unreadable};
ghost use Rattle.memory_station.specs.Disk.{is_bad, sectors_with, HasZeros};

use crate::history::put;
use station::SECTOR_BYTES;
use std::alloc::{AllocError, Global};

/// The bytes of a disk and the numbers of its sectors that can't be read, which rise. Those sectors
/// have zeros.
#[derive(Drop)]
pub(crate) struct Disk {
    pub(crate) bytes: Vec<u8>,
    pub(crate) bad: Vec<u64>,
    ghost rising: { IsStrictlyIncreasing bad.items },
    ghost within: { (n : ℕ) → is_bad bad.items n ≡ true → 512 * n + 512 ≤ length bytes.items },
    ghost zeros: { HasZeros bytes.items bad.items },
}

impl Disk {
    ghost use Rattle.memory_station.specs.Sectors.{sectors_at};

    /// A disk of these bytes, of which these sectors can't be read.
    pub(crate) fn load(alloc: Global, bytes: Vec<u8>, bad: &[u64]) -> Result<Disk, AllocError>
        requires { All (λ n. 512 * n + 512 ≤ length bytes.items) bad.now }
        ensures sectors { IfOk result (λ d.
            (n : ℕ) → sectors_at d n ≡ sectors_with bytes.items bad.now n) }
        ensures size { IfOk result (λ d. length d.bytes.items ≡ length bytes.items) }
        ensures count { IfOk result (λ d. vec_len d.bad ≤ length bad.now) }
        ensures room { IfOk result (λ d. length bad.now ≤ vec_capacity d.bad) }
    {
        let mut disk = Disk {
            bytes,
            bad: Vec::with_capacity(alloc, bad.len())?,
        };
        for place in 0..bad.len() {
            disk.lose(bad[place]);
        }
        Ok(disk)
    }

    /// Makes room for the numbers of so many sectors.
    pub(crate) fn reserve(&mut self, count: usize) -> Result<(), AllocError>
        ensures bytes { self.new.bytes ≡ self.old.bytes }
        ensures bad { self.new.bad.items ≡ self.old.bad.items }
        ensures room { OnOk result (vec_len self.new.bad + count ≤ vec_capacity self.new.bad) }
        ensures kept { vec_capacity self.old.bad ≤ vec_capacity self.new.bad }
    {
        self.bad.reserve(count)
    }

    /// Reads sector `n`, and tells whether it can be read.
    pub(crate) fn read(&self, n: u64, out: &mut [u8; 512]) -> bool
        requires { 512 * n + 512 ≤ length self.now.bytes.items }
        ensures { Tells result out.new (sectors_at self.now n) }
    {
        if self.bad.contains(&n) {
            return false;
        }
        let at = n as usize * SECTOR_BYTES;
        out.copy_from_slice(&self.bytes[at..at + SECTOR_BYTES]);
        true
    }

    /// Writes whole sectors from sector `first` on, which can be read then.
    pub(crate) fn write(&mut self, first: u64, bytes: &[u8])
        requires place { 512 * first + length bytes.now ≤ length self.old.bytes.items }
        requires whole { length bytes.now % 512 ≡ 0 }
        ensures sectors { (n : ℕ) → sectors_at self.new n
            ≡ disk_with first bytes.now (sectors_at self.old) n }
        ensures size { length self.new.bytes.items ≡ length self.old.bytes.items }
        ensures count { vec_len self.new.bad ≤ vec_len self.old.bad }
        ensures room { vec_capacity self.old.bad ≤ vec_capacity self.new.bad }
    {
        put(&mut self.bytes, first as usize * SECTOR_BYTES, bytes);
        let end = first + (bytes.len() / SECTOR_BYTES) as u64;
        self.bad.retain(|n| *n < first || end <= *n);
    }

    /// Sector `n` can't be read any more.
    pub(crate) fn lose(&mut self, n: u64)
        requires place { 512 * n + 512 ≤ length self.old.bytes.items }
        requires room { vec_len self.old.bad + 1 ≤ vec_capacity self.old.bad }
        ensures sectors { (m : ℕ) → sectors_at self.new m
            ≡ (if n == m then unreadable else sectors_at self.old m) }
        ensures size { length self.new.bytes.items ≡ length self.old.bytes.items }
        ensures count { vec_len self.new.bad ≤ vec_len self.old.bad + 1 }
        ensures room { vec_capacity self.old.bad ≤ vec_capacity self.new.bad }
    {
        put(
            &mut self.bytes,
            n as usize * SECTOR_BYTES,
            &[0; SECTOR_BYTES],
        );
        list(&mut self.bad, n);
    }

    /// Becomes what this one is.
    pub(crate) fn copy(&mut self, other: &Disk)
        requires size { length self.old.bytes.items ≡ length other.now.bytes.items }
        requires room { vec_len other.now.bad ≤ vec_capacity self.old.bad }
        ensures bytes { self.new.bytes.items ≡ other.now.bytes.items }
        ensures bad { self.new.bad.items ≡ other.now.bad.items }
        ensures room { vec_capacity self.old.bad ≤ vec_capacity self.new.bad }
    {
        self.bytes.copy_from_slice(&other.bytes);
        self.bad.clear();
        self.bad.extend_from_slice(&other.bad).unwrap();
    }
}

/// Puts a number among those that rise, if it isn't there.
fn list(bad: &mut Vec<u64>, n: u64)
    requires rising { IsStrictlyIncreasing bad.old.items }
    requires room { vec_len bad.old + 1 ≤ vec_capacity bad.old }
    ensures rising { IsStrictlyIncreasing bad.new.items }
    ensures has { (m : ℕ) → is_bad bad.new.items m ≡ (n == m || is_bad bad.old.items m) }
    ensures count { vec_len bad.new ≤ vec_len bad.old + 1 }
    ensures room { vec_capacity bad.old ≤ vec_capacity bad.new }
{
    if let Err(place) = bad.binary_search(&n) {
        bad.insert(place, n).unwrap();
    }
}
