//! The two slots, and the newest root that stands in one.

ghost use Rattle.std.specs.Prelude.{◌≡◌, ◌⊎◌, ◌↔◌, ◌<◌, ◌≤◌, List, ℕ, Ok, OnErr, IfErr, IfOk, IsErrOf, IsOkAnd, IsTrue, MatchResult, None, Some};
ghost use Rattle.std.specs.Option.{ForSome};
ghost use Rattle.station.specs.Calls.{OnlyReads};
ghost use Rattle.station.specs.Moments.{Shows};
ghost use Rattle.layout.specs.Opens.{IsNewest};
ghost use Rattle.layout.specs.Root.{IsRoot};
ghost use Rattle.layout.specs.declared.TheConstants.{SLOT_A, SLOT_B};
ghost use Rattle.layout.specs.declared.root.Root.{Root};
ghost use Rattle.loading.specs.Slots.{FitsStation, HasNoRoot, IsNewestAt, TellsRoot};

use crate::RootError;
use layout::{Root, SECTOR_BYTES, SLOT_A, SLOT_B};
use station::Station;

/// The newest root of an image, and the sector of the slot that it stands in.
#[derive(Clone, Copy, Debug)]
pub struct Newest {
    pub root: Root,
    pub slot: u64,
}

/// Finds the newest root. `NoRoot` where no slot of the station that can be read holds one,
/// `Damaged` where two are of one generation or of different sizes, or where the station has
/// another size; `Device` where a read failed.
pub fn newest_root<S: Station>(station: &mut S) -> Result<Newest, RootError>
    ensures reads { OnlyReads (λ e. e ≡ RootError.Device)
        (S.meaning station.old) (S.meaning station.new) result }
    ensures root { IfOk result (λ n. IsRoot n.root) }
    ensures fits { IfOk result (λ n. FitsStation n.root (S.meaning station.old)) }
    ensures no_root { IsErrOf result RootError.NoRoot
        → Shows (S.meaning station.old) (λ c. HasNoRoot (S.meaning station.old).sectors c.disk) }
    ensures rootless { (S.meaning station.old).is_honest
        → HasNoRoot (S.meaning station.old).sectors (S.meaning station.old).seen.disk
        → MatchResult result (λ _. ⊥) (λ e. (e ≡ RootError.NoRoot) ⊎ (e ≡ RootError.Device)) }
    ensures found { (S.meaning station.old).is_honest
        → IfOk result (λ n. IsNewestAt n.slot n.root (S.meaning station.old).seen.disk) }
    ensures only { (S.meaning station.old).is_honest → (r : Root)
        → IsNewest r ((S.meaning station.old).seen.disk SLOT_A)
        ((S.meaning station.old).seen.disk SLOT_B)
        → FitsStation r (S.meaning station.old)
        → MatchResult result (λ n. n.root ≡ r) (λ e. e ≡ RootError.Device) }
{
    let newest = newer_slot(station)?;
    if fits_station(newest.root, station) {
        Ok(newest)
    } else {
        Err(RootError::Damaged)
    }
}

/// Whether a station has the sizes of a root's image.
fn fits_station<S: Station>(root: Root, station: &S) -> bool
    ensures { IsTrue result ↔ FitsStation root (S.meaning station.now) }
{
    let geometry = root.geometry;
    station.sectors() == geometry.sectors() && station.nv_bytes() == geometry.nvram_bytes()
}

/// The newest root, whatever the size of the station.
fn newer_slot<S: Station>(station: &mut S) -> Result<Newest, RootError>
    ensures reads { OnlyReads (λ e. e ≡ RootError.Device)
        (S.meaning station.old) (S.meaning station.new) result }
    ensures root { IfOk result (λ n. IsRoot n.root) }
    ensures no_root { IsErrOf result RootError.NoRoot
        → Shows (S.meaning station.old) (λ c. HasNoRoot (S.meaning station.old).sectors c.disk) }
    ensures rootless { (S.meaning station.old).is_honest
        → HasNoRoot (S.meaning station.old).sectors (S.meaning station.old).seen.disk
        → MatchResult result (λ _. ⊥) (λ e. (e ≡ RootError.NoRoot) ⊎ (e ≡ RootError.Device)) }
    ensures found { (S.meaning station.old).is_honest → SLOT_B < (S.meaning station.old).sectors
        → IfOk result (λ n. IsNewestAt n.slot n.root (S.meaning station.old).seen.disk) }
    ensures only { (S.meaning station.old).is_honest → SLOT_B < (S.meaning station.old).sectors
        → (r : Root)
        → IsNewest r ((S.meaning station.old).seen.disk SLOT_A)
        ((S.meaning station.old).seen.disk SLOT_B)
        → MatchResult result (λ n. n.root ≡ r) (λ e. e ≡ RootError.Device) }
{
    let first = read_slot(station, SLOT_A)?;
    let second = read_slot(station, SLOT_B)?;
    newer(first, second)
}

/// The newer of what two slots hold.
fn newer(first: Option<Root>, second: Option<Root>) -> Result<Newest, RootError>
    requires first { ForSome first IsRoot }
    requires second { ForSome second IsRoot }
    ensures root { IfOk result (λ n. IsRoot n.root) }
    ensures no_device { IsErrOf result RootError.Device → ⊥ }
    ensures no_root { IsErrOf result RootError.NoRoot ↔ ((first ≡ None) × (second ≡ None)) }
    ensures found { (disk : ℕ → List ℕ) → TellsRoot (disk SLOT_A) first
        → TellsRoot (disk SLOT_B) second → IfOk result (λ n. IsNewestAt n.slot n.root disk) }
    ensures only { (disk : ℕ → List ℕ) → TellsRoot (disk SLOT_A) first
        → TellsRoot (disk SLOT_B) second → (r : Root)
        → IsNewest r (disk SLOT_A) (disk SLOT_B) → IsOkAnd result (λ n. n.root ≡ r) }
{
    match (first, second) {
        (None, None) => Err(RootError::NoRoot),
        (Some(root), None) => Ok(Newest { root, slot: SLOT_A }),
        (None, Some(root)) => Ok(Newest { root, slot: SLOT_B }),
        (Some(first), Some(second)) => newer_root(first, second),
    }
}

/// The newer of two roots. `Damaged` where they are of one generation or of different sizes.
fn newer_root(first: Root, second: Root) -> Result<Newest, RootError>
    requires first { IsRoot first }
    requires second { IsRoot second }
    ensures root { IfOk result (λ n. IsRoot n.root) }
    ensures damaged { IfErr result (λ e. e ≡ RootError.Damaged) }
    ensures found { (disk : ℕ → List ℕ) → TellsRoot (disk SLOT_A) (Some first)
        → TellsRoot (disk SLOT_B) (Some second)
        → IfOk result (λ n. IsNewestAt n.slot n.root disk) }
    ensures only { (disk : ℕ → List ℕ) → TellsRoot (disk SLOT_A) (Some first)
        → TellsRoot (disk SLOT_B) (Some second) → (r : Root)
        → IsNewest r (disk SLOT_A) (disk SLOT_B) → IsOkAnd result (λ n. n.root ≡ r) }
{
    let age = first.generation.get();
    let other_age = second.generation.get();
    if age == other_age || first.geometry != second.geometry {
        return Err(RootError::Damaged);
    }
    if age < other_age {
        Ok(Newest {
            root: second,
            slot: SLOT_B,
        })
    } else {
        Ok(Newest {
            root: first,
            slot: SLOT_A,
        })
    }
}

/// The root in a slot, if the station has the slot and a root is there. A slot that can't be read
/// holds none.
fn read_slot<S: Station>(station: &mut S, sector: u64) -> Result<Option<Root>, RootError>
    ensures reads { OnlyReads (λ e. e ≡ RootError.Device)
        (S.meaning station.old) (S.meaning station.new) result }
    ensures root { IfOk result (λ slot. ForSome slot IsRoot) }
    ensures err { OnErr result (result ≡ Err RootError.Device) }
    ensures holds { sector < (S.meaning station.old).sectors
        → IfOk result (λ slot. Shows (S.meaning station.old) (λ c. TellsRoot (c.disk sector) slot)) }
    ensures past { (S.meaning station.old).sectors ≤ sector → IfOk result (λ slot. slot ≡ None) }
{
    if sector >= station.sectors() {
        return Ok(None);
    }
    let mut bytes = [0; SECTOR_BYTES];
    if !station.read_sector(sector, &mut bytes)? {
        return Ok(None);
    }
    Ok(Root::read(&bytes))
}
