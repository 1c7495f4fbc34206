//! Changes of the map from numbers to objects.

ghost use Rattle.std.specs.Prelude.{◌≡◌, ◌≢◌, ◌==◌, ◌≤◌, ◌<◌, ◌↔◌, ℕ, List, Option, Some, None, OnOk, IfSome, IfNone, IsSome, if◌then◌else◌};
ghost use Rattle.std.specs.Option.{option_map};
ghost use Rattle.std.specs.Ordering.{nat_cmp};
ghost use Rattle.std.specs.BTreeMap as tree;
ghost use Rattle.layout.specs.declared.inode.Inode.{Inode};
ghost use Rattle.layout.specs.declared.version.TheConstants.{VERSION};
ghost use Rattle.model.specs.declared.limits.TheConstants.{FIRST_NUMBER, ROOT_NUMBER};
ghost use Rattle.model.specs.Volumes.{Volume};
ghost use Rattle.images.specs.Contents.{HoldsVolume};
ghost use Rattle.images.specs.Soundness.{Detail};
ghost use Rattle.inode.specs.declared.object.Object.{Object};
ghost use Rattle.inofile.specs.Objects.{IsObjectIn, IsSameOrNone, StaysKnown};
ghost use Rattle.inofile.specs.Settled.{AreSettled, content_of_object, held_content, settled_content};

use crate::{InodeFile, ObjectSlot};
use inode::{File, Object};
use layout::VERSION;
use std::alloc::AllocError;

impl InodeFile {
    ghost use Rattle.inofile.specs.Giving.{IsGiven};
    ghost use Rattle.inofile.specs.Inodes.{loaded, content_at, SameObjects, IsKnown, HasRoomFor, IsChanged};
    ghost use Rattle.inofile.specs.Room.{NeedsNoMore};
    ghost use Rattle.inofile.specs.Volumes.{IsVolumeIn, IsVolumeOf, IsVolumeWithout, MapsVolume, slot_with};

    /// Makes room for a change of the object with a number. No object changes by it.
    pub fn prepare_set(&mut self, number: u32) -> Result<(), AllocError>
        ensures geometry { self.new.geometry ≡ self.old.geometry }
        ensures file { self.new.file ≡ self.old.file }
        ensures map { self.new.numbers ≡ self.old.numbers }
        ensures room { OnOk result (HasRoomFor self.new number) }
        ensures stays { (n : ℕ) → IsKnown self.old n → IsKnown self.new n }
        ensures keeps { (n : ℕ) → HasRoomFor self.old n → HasRoomFor self.new n }
        ensures needs { NeedsNoMore self.old self.new }
        ensures changed { (n : ℕ) → IsChanged self.new n ↔ IsChanged self.old n }
        ensures loaded { (n : ℕ) → loaded self.new n ≡ loaded self.old n }
        ensures same { (disk : ℕ → List ℕ) (settled : ℕ → Inode)
            → SameObjects disk settled self.old self.new }
        ensures volume { (detail : Detail) (count : ℕ) (disk : ℕ → List ℕ) (settled : ℕ → Inode)
            (v : Volume) → IsVolumeIn detail count disk settled self.old v
            → IsVolumeIn detail count disk settled self.new v }
    {
        if self.slots.contains_key(&number) {
            return Ok(());
        }
        match self.slots.insert(number, ObjectSlot::AsSettled) {
            Ok(_) => Ok(()),
            Err(_) => Err(AllocError),
        }
    }

    /// Gives a number this object, or none; there is room for it.
    pub fn commit_set(&mut self, number: u32, object: Option<Object>)
        requires room { HasRoomFor self.old number }
        requires low { ROOT_NUMBER ≤ number }
        requires high { number < self.old.geometry.inodes }
        ensures { IsGiven number object self.old self.new }
    {
        self.numbers.note(number, object.is_some());
        let _ = self.slots.insert(number, ObjectSlot::Changed(object));
    }

    /// Takes an object out, to be prepared or changed, until it is put back or set. Till then its
    /// number has none.
    pub fn take(&mut self, number: u32) -> Option<Object>
        requires { IsKnown self.old number }
        ensures geometry { self.new.geometry ≡ self.old.geometry }
        ensures file { self.new.file ≡ self.old.file }
        ensures map { self.new.numbers ≡ self.old.numbers }
        ensures stays { (n : ℕ) → IsKnown self.old n → IsKnown self.new n }
        ensures keeps { (n : ℕ) → HasRoomFor self.old n → HasRoomFor self.new n }
        ensures slots { (n : ℕ) → (n ≢ number)
            → tree.get nat_cmp self.new.slots n ≡ tree.get nat_cmp self.old.slots n }
        ensures back { slot_with result (tree.get nat_cmp self.new.slots number)
            ≡ tree.get nat_cmp self.old.slots number }
        ensures loaded { result ≡ loaded self.old number }
        ensures rest { (n : ℕ) → (n ≢ number) → loaded self.new n ≡ loaded self.old n }
        ensures taken { (disk : ℕ → List ℕ) (settled : ℕ → Inode)
            → option_map (content_of_object disk) result ≡ content_at disk settled self.old number }
        ensures others { (disk : ℕ → List ℕ) (settled : ℕ → Inode) (n : ℕ) → (n ≢ number)
            → content_at disk settled self.new n ≡ content_at disk settled self.old n }
        ensures changed { (n : ℕ) → IsChanged self.new n ↔ IsChanged self.old n }
        ensures stands { (detail : Detail) (count : ℕ) (disk : ℕ → List ℕ) (settled : ℕ → Inode)
            (v : Volume) → IsVolumeIn detail count disk settled self.old v → IfSome result (λ o.
            IsObjectIn detail disk self.old.geometry.inodes (settled number) o (v number)) }
        ensures stands_for_none { (detail : Detail) (count : ℕ) (disk : ℕ → List ℕ)
            (settled : ℕ → Inode) (v : Volume) → IsVolumeIn detail count disk settled self.old v
            → IfNone result (v number ≡ None) }
        ensures without { (detail : Detail) (count : ℕ) (disk : ℕ → List ℕ) (settled : ℕ → Inode)
            (v : Volume) → IsVolumeIn detail count disk settled self.old v
            → IsVolumeWithout detail number result count disk settled self.new v }
    {
        match self.slots.insert(number, ObjectSlot::Loaded(None)) {
            Ok(Some(ObjectSlot::Loaded(object))) => object,
            Ok(Some(ObjectSlot::Changed(object))) => {
                let _ = self.slots.insert(number, ObjectSlot::Changed(None));
                object
            }
            _ => None,
        }
    }

    /// Puts an object back that was taken out.
    pub fn put_back(&mut self, number: u32, object: Option<Object>)
        requires { IsKnown self.old number }
        ensures geometry { self.new.geometry ≡ self.old.geometry }
        ensures file { self.new.file ≡ self.old.file }
        ensures map { self.new.numbers ≡ self.old.numbers }
        ensures stays { (n : ℕ) → IsKnown self.old n → IsKnown self.new n }
        ensures keeps { (n : ℕ) → HasRoomFor self.old n → HasRoomFor self.new n }
        ensures set { (disk : ℕ → List ℕ) (settled : ℕ → Inode) (n : ℕ)
            → content_at disk settled self.new n
            ≡ (if n == number then option_map (content_of_object disk) object
            else content_at disk settled self.old n) }
        ensures slots { (n : ℕ) → (n ≢ number)
            → tree.get nat_cmp self.new.slots n ≡ tree.get nat_cmp self.old.slots n }
        ensures here { tree.get nat_cmp self.new.slots number
            ≡ slot_with object (tree.get nat_cmp self.old.slots number) }
        ensures loaded { loaded self.new number ≡ object }
        ensures rest { (n : ℕ) → (n ≢ number) → loaded self.new n ≡ loaded self.old n }
        ensures changed { (n : ℕ) → IsChanged self.new n ↔ IsChanged self.old n }
        ensures volume { (detail : Detail) (was : Option Object) (count : ℕ) (disk : ℕ → List ℕ)
            (settled : ℕ → Inode) (v : Volume)
            → IsVolumeWithout detail number was count disk settled self.old v
            → IsSameOrNone was object → StaysKnown self.old.geometry.inodes disk was object
            → IsVolumeIn detail count disk settled self.new v }
    {
        let slot = self.slot_with(number, object);
        let _ = self.slots.insert(number, slot);
    }

    // What memory has of a number, with this object in it.
    fn slot_with(&self, number: u32, object: Option<Object>) -> ObjectSlot
        requires { IsKnown self.now number }
        ensures { Some result ≡ slot_with object (tree.get nat_cmp self.now.slots number) }
    {
        match self.slots.get(&number) {
            Some(ObjectSlot::Changed(_)) => ObjectSlot::Changed(object),
            _ => ObjectSlot::Loaded(object),
        }
    }

    /// Takes in a consistency point, which settled all that was changed: this is the inode file
    /// now, in the newest version, and nothing is in memory. What was there is freed by
    /// `let_past_go`.
    pub fn switch_to_new_root(&mut self, file: File)
        ensures version { self.new.version ≡ VERSION }
        ensures geometry { self.new.geometry ≡ self.old.geometry }
        ensures file { self.new.file ≡ file }
        ensures map { self.new.numbers ≡ self.old.numbers }
        ensures unchanged { (n : ℕ) → IsChanged self.new n → ⊥ }
        ensures unknown { (n : ℕ) → IsKnown self.new n → ⊥ }
        ensures settled { (disk : ℕ → List ℕ) (settled : ℕ → Inode) (n : ℕ)
            → content_at disk settled self.new n ≡ settled_content disk (settled n) }
        ensures volume { (count : ℕ) (disk : ℕ → List ℕ) (settled : ℕ → Inode) (v : Volume)
            → AreSettled count disk VERSION self.old.geometry file settled
            → MapsVolume self.old.numbers.bytes.items v
            → HoldsVolume self.old.geometry.inodes (λ n. held_content disk (settled n)) v
            → IsVolumeOf count disk settled self.new v }
    {
        self.version = VERSION;
        self.file = file;
        self.past.take_in(&mut self.slots);
    }

    /// Frees the objects that were in memory until the last consistency point was planned, once
    /// that ends. Nothing else changes by it.
    pub fn let_past_go(&mut self)
        ensures { self.new ≡ self.old }
    {
        self.past.clear();
    }

    /// The least number from the first on that no object has; None where each has one.
    pub fn least_free(&mut self) -> Option<u32>
        ensures geometry { self.new.geometry ≡ self.old.geometry }
        ensures file { self.new.file ≡ self.old.file }
        ensures slots { self.new.slots ≡ self.old.slots }
        ensures map { self.new.numbers.bytes.items ≡ self.old.numbers.bytes.items }
        ensures within { IfSome result (λ n. (FIRST_NUMBER ≤ n) × (n < self.old.geometry.inodes)) }
        ensures volume { (detail : Detail) (count : ℕ) (disk : ℕ → List ℕ) (settled : ℕ → Inode)
            (v : Volume) → IsVolumeIn detail count disk settled self.old v
            → IsVolumeIn detail count disk settled self.new v }
        ensures free { (count : ℕ) (disk : ℕ → List ℕ) (settled : ℕ → Inode) (v : Volume)
            → IsVolumeOf count disk settled self.old v → IfSome result (λ n. v n ≡ None) }
        ensures least { (count : ℕ) (disk : ℕ → List ℕ) (settled : ℕ → Inode) (v : Volume)
            → IsVolumeOf count disk settled self.old v
            → IfSome result (λ n. (k : ℕ) → FIRST_NUMBER ≤ k → k < n → IsSome (v k)) }
        ensures none { (count : ℕ) (disk : ℕ → List ℕ) (settled : ℕ → Inode) (v : Volume)
            → IsVolumeOf count disk settled self.old v → IfNone result ((k : ℕ)
            → FIRST_NUMBER ≤ k → k < self.old.geometry.inodes → IsSome (v k)) }
    {
        self.numbers.least_free()
    }
}
