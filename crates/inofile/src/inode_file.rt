//! The map from numbers to objects, as it is read.

use crate::hints::ParentHints;
use crate::past::Past;
use crate::settled::read_inode;
use crate::{Numbers, ParentHint};
use buffers::{BlockError, Blocks};
use inode::{File, Object};
use layout::{Geometry, INODES_PER_BLOCK, Inode, Kind};
use model::Limits;
use std::alloc::{AllocError, Global};
use std::collections::BTreeMap;

/// What memory has of an inode. Without an object the inode is free.
#[derive(Debug, Drop)]
pub enum ObjectSlot {
    /// Room for a change; the inode is as the settled file has it.
    AsSettled,
    /// In memory, and as the settled file has it.
    Loaded(Option<Object>),
    /// Changed since the last consistency point.
    Changed(Option<Object>),
}

/// The inodes of an image, settled ones and changed ones.
#[derive(Debug, Drop)]
pub struct InodeFile {
    /// The version of the layout that the settled inodes are in.
    pub(crate) version: u32,
    pub(crate) geometry: Geometry,
    /// The settled inode file.
    pub(crate) file: File,
    pub(crate) slots: BTreeMap<u32, ObjectSlot>,
    pub(crate) numbers: Numbers,
    pub(crate) past: Past,
    pub(crate) hints: ParentHints,
    ghost same: { numbers.inodes ≡ geometry.inodes },
    ghost changes: { ChangesObjects geometry.inodes slots },
}

ghost use Rattle.std.specs.Prelude.{◌≡◌, ◌≢◌, ◌≤◌, ◌<◌, ◌*◌, ◌↔◌, ℕ, List, Option, Some, None, OnOk, IfOk, IfSome, IfNone, IsErrOf, IsSome, IsTrue, IsFalse, All, Contains, filter, length, map, option_copied, vec_len};
ghost use Rattle.std.specs.List.{list_any};
ghost use Rattle.std.specs.Int.{div_ceil};
ghost use Rattle.std.specs.List.Sorted.{IsStrictlyIncreasing};
ghost use Rattle.std.specs.Option.{option_map};
ghost use Rattle.std.specs.Ordering.{nat_cmp};
ghost use Rattle.std.specs.BTreeMap as tree;
ghost use Rattle.layout.specs.Inode.{IsInode};
ghost use Rattle.layout.specs.Limits.{Sizes};
ghost use Rattle.layout.specs.StateLimits.{limits_of};
ghost use Rattle.layout.specs.Trees.{greatest_size};
ghost use Rattle.layout.specs.Version.{greatest_under};
ghost use Rattle.layout.specs.declared.inode.Inode.{Inode};
ghost use Rattle.model.specs.declared.limits.TheConstants.{FIRST_NUMBER, ROOT_NUMBER};
ghost use Rattle.model.specs.Counting.{Counts};
ghost use Rattle.model.specs.Volumes.{IsVolume, Node, Volume};
ghost use Rattle.buffers.specs.Reads.{ReadsBlocks};
ghost use Rattle.buffers.specs.Errors.{IsFault};
ghost use Rattle.images.specs.Nodes.{held};
ghost use Rattle.images.specs.Sizes.{HoldsVolumeIn, StandsForIn};
ghost use Rattle.images.specs.Soundness.{Detail, IsHeldFile, IsOrdinary};
ghost use Rattle.inofile.specs.Objects.{IsAsSettled, IsObjectIn, IsObjectOrNone, IsUntouched};
ghost use Rattle.inofile.specs.Settled.{AreSettledIn, content_of_object, held_content, settled_content};
ghost use Rattle.inofile.specs.Slots.{ChangesObjects};

impl ObjectSlot {
    ghost use Rattle.inofile.specs.Inodes.{is_changed_slot};

    // Whether the next consistency point stores the object.
    fn is_changed(&self) -> bool
        ensures { result ≡ is_changed_slot (Some self.now) }
    {
        matches!(self, ObjectSlot::Changed(_))
    }
}

impl InodeFile {
    ghost use Rattle.inofile.specs.Inodes.{is_changed_slot, content_at, SameObjects, IsKnown, HasRoomFor, HasNoChange, IsChanged, loaded};
    ghost use Rattle.inofile.specs.Room.{NeedsNoMore};
    ghost use Rattle.inofile.specs.Volumes.{IsVolumeIn, MapsVolume};
    ghost use Rattle.layout.specs.Maps.{IsTaken};

    /// The inodes of this settled inode file, in a version of the layout, with the bytes of the
    /// inode map.
    pub fn new(
        alloc: Global,
        version: u32,
        geometry: Geometry,
        file: File,
        map: Vec<u8>,
    ) -> InodeFile
        requires { vec_len map ≡ div_ceil geometry.inodes 8 }
        ensures version { result.version ≡ version }
        ensures geometry { result.geometry ≡ geometry }
        ensures file { result.file ≡ file }
        ensures map { result.numbers.bytes.items ≡ map.items }
        ensures settled { (disk : ℕ → List ℕ) (settled : ℕ → Inode) (n : ℕ)
            → content_at disk settled result n ≡ settled_content disk (settled n) }
        ensures unchanged { (n : ℕ) → IsChanged result n → ⊥ }
        ensures volume { (detail : Detail) (count : ℕ) (disk : ℕ → List ℕ) (settled : ℕ → Inode)
            (v : Volume) → AreSettledIn detail count disk version geometry file settled
            → MapsVolume map.items v
            → HoldsVolumeIn detail geometry.inodes (λ n. held_content disk (settled n)) v
            → IsVolumeIn detail count disk settled result v }
    {
        let inodes = geometry.inodes();
        InodeFile {
            version,
            geometry,
            file,
            slots: BTreeMap::new(alloc),
            numbers: Numbers::new(map, inodes),
            past: Past::new(alloc),
            hints: ParentHints::new(alloc),
        }
    }

    /// Reads a settled inode; Damaged where it isn't one of its version. Number 0 stands for the
    /// inode file, whose own inode stands elsewhere.
    pub fn settled_inode<B: Blocks>(&self, blocks: &mut B, number: u32) -> Result<Inode, BlockError>
        requires low { 1 ≤ number }
        requires high { number < self.now.geometry.inodes }
        ensures reads { ReadsBlocks B.Blocks IsFault blocks.old blocks.new result }
        ensures read { (detail : Detail) (disk : ℕ → List ℕ) (settled : ℕ → Inode)
            → B.Shows blocks.old disk → AreSettledIn detail (B.count blocks.old) disk self.now.version
            self.now.geometry self.now.file settled → IfOk result (λ i. i ≡ settled number) }
        ensures fits { IfOk result (IsInode self.now.geometry) }
        ensures within { IfOk result (λ i. i.size ≤ greatest_under self.now.version) }
        ensures damaged { (detail : Detail) (disk : ℕ → List ℕ) (settled : ℕ → Inode)
            → B.Shows blocks.old disk → IsErrOf result BlockError.Damaged
            → AreSettledIn detail (B.count blocks.old) disk self.now.version self.now.geometry
            self.now.file settled → ⊥ }
    {
        let block = number / INODES_PER_BLOCK;
        let location = self.file.locate(blocks, block)?;
        read_inode(
            self.file.bytes(blocks, block, location),
            number % INODES_PER_BLOCK,
            self.version,
            self.geometry,
        )
    }

    /// Takes an object into memory, where it isn't there. No object changes by it.
    pub fn load<B: Blocks>(
        &mut self,
        alloc: Global,
        blocks: &mut B,
        number: u32,
    ) -> Result<(), BlockError>
        requires low { ROOT_NUMBER ≤ number }
        requires high { number < self.old.geometry.inodes }
        ensures reads { ReadsBlocks B.Blocks IsFault blocks.old blocks.new result }
        ensures geometry { self.new.geometry ≡ self.old.geometry }
        ensures file { self.new.file ≡ self.old.file }
        ensures map { self.new.numbers ≡ self.old.numbers }
        ensures known { OnOk result (IsKnown self.new number) }
        ensures stays { (n : ℕ) → IsKnown self.old n → IsKnown self.new n }
        ensures keeps { (n : ℕ) → HasRoomFor self.old n → HasRoomFor self.new n }
        ensures needs { NeedsNoMore self.old self.new }
        ensures changed { (n : ℕ) → IsChanged self.new n ↔ IsChanged self.old n }
        ensures loaded { IsKnown self.old number
            → loaded self.new number ≡ loaded self.old number }
        ensures untouched { (IsKnown self.old number → ⊥)
            → OnOk result (IfSome (loaded self.new number) IsUntouched) }
        ensures rest { (n : ℕ) → (n ≢ number) → loaded self.new n ≡ loaded self.old n }
        ensures same { (detail : Detail) (disk : ℕ → List ℕ) (settled : ℕ → Inode)
            → B.Shows blocks.old disk → AreSettledIn detail (B.count blocks.old) disk self.old.version
            self.old.geometry self.old.file settled → SameObjects disk settled self.old self.new }
        ensures volume { (detail : Detail) (disk : ℕ → List ℕ) (settled : ℕ → Inode) (v : Volume)
            → B.Shows blocks.old disk
            → IsVolumeIn detail (B.count blocks.old) disk settled self.old v
            → IsVolumeIn detail (B.count blocks.old) disk settled self.new v }
        ensures damaged { (detail : Detail) (disk : ℕ → List ℕ) (settled : ℕ → Inode)
            → B.Shows blocks.old disk → IsErrOf result BlockError.Damaged
            → AreSettledIn detail (B.count blocks.old) disk self.old.version self.old.geometry
            self.old.file settled → ⊥ }
    {
        if self.is_known(number) {
            return Ok(());
        }
        let inode = self.settled_inode(blocks, number)?;
        let object = load_object(alloc, inode)?;
        match self.slots.insert(number, ObjectSlot::Loaded(object)) {
            Ok(_) => Ok(()),
            Err(_) => Err(BlockError::NoMemory),
        }
    }

    /// Whether an object, or that there is none, is in memory.
    pub fn is_known(&self, number: u32) -> bool
        ensures { IsTrue result ↔ IsKnown self.now number }
    {
        match self.slots.get(&number) {
            Some(ObjectSlot::AsSettled) => false,
            Some(ObjectSlot::Loaded(_)) => true,
            Some(ObjectSlot::Changed(_)) => true,
            None => false,
        }
    }

    /// Whether the object with a number is to be stored by the next consistency point.
    pub fn is_changed(&self, number: u32) -> bool
        ensures { result ≡ is_changed_slot (tree.get nat_cmp self.now.slots number) }
    {
        matches!(self.slots.get(&number), Some(ObjectSlot::Changed(_)))
    }

    /// The numbers whose objects the next consistency point stores, in their order.
    pub fn changed_numbers(&self, alloc: Global) -> Result<Vec<u32>, AllocError>
        ensures sorted { IfOk result (λ numbers. IsStrictlyIncreasing numbers.items) }
        ensures members { IfOk result (λ numbers. (n : ℕ)
            → Contains numbers.items n ↔ IsChanged self.now n) }
        ensures within { IfOk result (λ numbers. (n : ℕ) → Contains numbers.items n
            → (ROOT_NUMBER ≤ n) × (n < self.now.geometry.inodes)) }
        ensures known { IfOk result (λ numbers. (n : ℕ)
            → Contains numbers.items n → IsKnown self.now n) }
    {
        let numbers = self.changed_keys(alloc)?;
        Ok(numbers)
    }

    fn changed_keys(&self, alloc: Global) -> Result<Vec<u32>, AllocError>
        ensures keys { IfOk result (λ numbers. numbers.items
            ≡ map (λ e. e.0) (filter (λ e. is_changed_slot (Some e.1)) self.now.slots.entries)) }
        ensures found { OnOk result (All (λ e. tree.get nat_cmp self.now.slots e.0 ≡ Some e.1)
            self.now.slots.entries) }
        ensures ordered { OnOk result (tree.IsOrdered nat_cmp self.now.slots) }
    {
        self.slots
            .iter()
            .filter(|(_, slot)| slot.is_changed())
            .map(|(n, _)| *n)
            .collect(alloc)
    }

    /// Whether the next consistency point has no object to store.
    pub fn is_settled(&self) -> bool
        ensures { IsTrue result ↔ HasNoChange self.now }
    {
        !self.has_changes()
    }

    fn has_changes(&self) -> bool
        ensures { result ≡ list_any (λ n. is_changed_slot (tree.get nat_cmp self.now.slots n))
            (tree.keys self.now.slots) }
    {
        self.slots.keys().any(|n| self.is_changed(*n))
    }

    /// Whether the inode map has a number as taken: an object has it, or it is one of the file
    /// system's own.
    pub fn is_taken(&self, number: u32) -> bool
        requires { number < self.now.geometry.inodes }
        ensures taken { IsTrue result ↔ IsTaken self.now.numbers.bytes.items number }
        ensures free { (detail : Detail) (count : ℕ) (disk : ℕ → List ℕ) (settled : ℕ → Inode)
            (v : Volume) → IsVolumeIn detail count disk settled self.now v → IsFalse result → v number ≡ None }
    {
        self.numbers.is_taken(number)
    }

    /// The least number from the first on that the inode map doesn't have as taken; None where it
    /// has all.
    pub fn next_free(&self) -> Option<u32>
        ensures within { IfSome result (λ n. (FIRST_NUMBER ≤ n) × (n < self.now.geometry.inodes)) }
        ensures free { IfSome result (λ n. IsTaken self.now.numbers.bytes.items n → ⊥) }
        ensures least { IfSome result (λ n. (k : ℕ) → FIRST_NUMBER ≤ k → k < n
            → IsTaken self.now.numbers.bytes.items k) }
        ensures none { IfNone result ((k : ℕ) → FIRST_NUMBER ≤ k → k < self.now.geometry.inodes
            → IsTaken self.now.numbers.bytes.items k) }
    {
        self.numbers.next_free()
    }

    /// The limits of its file system.
    pub fn limits(&self) -> Limits
        ensures { result ≡ limits_of self.now.geometry }
    {
        self.geometry.limits()
    }

    /// How many numbers have an object, the root's among them.
    pub fn count_taken(&self) -> u32
        ensures { (detail : Detail) (count : ℕ) (disk : ℕ → List ℕ) (settled : ℕ → Inode)
            (v : Volume) → IsVolumeIn detail count disk settled self.now v
            → IsVolume (limits_of self.now.geometry) v → Counts (λ n. IsSome (v n)) result }
    {
        self.numbers.count_taken() + 1
    }

    /// The object with a number, if there is one; what is known of it is in memory.
    pub fn get(&self, number: u32) -> Option<&Object>
        requires { IsKnown self.now number }
        ensures some { (disk : ℕ → List ℕ) (settled : ℕ → Inode)
            → IfSome result (λ o. content_at disk settled self.now number
            ≡ Some (content_of_object disk o.now)) }
        ensures none { (disk : ℕ → List ℕ) (settled : ℕ → Inode)
            → IfNone result (content_at disk settled self.now number ≡ None) }
        ensures loaded { IfSome result (λ o. loaded self.now number ≡ Some o.now) }
        ensures stands { (detail : Detail) (count : ℕ) (disk : ℕ → List ℕ) (settled : ℕ → Inode)
            (v : Volume) → IsVolumeIn detail count disk settled self.now v → IfSome result (λ o.
            IsObjectIn detail disk self.now.geometry.inodes (settled number) o.now (v number)) }
        ensures stands_for_none { (detail : Detail) (count : ℕ) (disk : ℕ → List ℕ)
            (settled : ℕ → Inode) (v : Volume) → IsVolumeIn detail count disk settled self.now v
            → IfNone result (v number ≡ None) }
    {
        match self.slots.get(&number) {
            Some(ObjectSlot::AsSettled) => None,
            Some(ObjectSlot::Loaded(object)) => object.as_ref(),
            Some(ObjectSlot::Changed(object)) => object.as_ref(),
            None => None,
        }
    }

    /// The sizes of the image.
    pub fn geometry(&self) -> Geometry
        ensures { result ≡ self.now.geometry }
    {
        self.geometry
    }

    /// The settled inode file.
    pub fn file(&self) -> &File
        ensures { result.now ≡ self.now.file }
    {
        &self.file
    }

    /// The inode map's bytes, as a consistency point stores them.
    pub fn map_bytes(&self) -> &[u8]
        ensures bytes { result.now ≡ self.now.numbers.bytes.items }
        ensures length { length result.now ≡ div_ceil self.now.geometry.inodes 8 }
    {
        self.numbers.bytes()
    }

    /// Remembers that a directory stands in a parent under a name, as far as there is memory for it:
    /// a hint, of which nothing is promised. Nothing else changes by it.
    pub fn note_parent(&mut self, directory: u32, parent: u32, name: &[u8])
        ensures { self.new ≡ self.old }
    {
        self.hints.note(directory, parent, name);
    }

    /// The same of a number of which such a hint is there; of no other one.
    pub fn note_move(&mut self, number: u32, parent: u32, name: &[u8])
        ensures { self.new ≡ self.old }
    {
        self.hints.note_move(number, parent, name);
    }

    /// Where the directory with a number may stand, if that is remembered. It needn't be true, so
    /// look whether it is.
    pub fn parent_hint(&mut self, directory: u32) -> Option<ParentHint>
        ensures { self.new ≡ self.old }
    {
        self.hints.get(directory)
    }

    /// What memory has of a number: a consistency point stores the changed ones.
    pub fn slot(&self, number: u32) -> Option<&ObjectSlot>
        ensures { option_copied result ≡ tree.get nat_cmp self.now.slots number }
    {
        self.slots.get(&number)
    }
}

// The object of a settled inode, if it is one.
fn load_object(alloc: Global, inode: Inode) -> Result<Option<Object>, AllocError>
    requires { inode.size ≤ greatest_size inode.layout }
    ensures content { (detail : Detail) (s : Sizes) (disk : ℕ → List ℕ)
        → IsHeldFile detail s (held disk inode) → IfOk result (λ o. option_map (content_of_object disk) o ≡ settled_content disk inode) }
    ensures as_settled { (detail : Detail) (s : Sizes) (disk : ℕ → List ℕ)
        → IsHeldFile detail s (held disk inode) → IfOk result (IsAsSettled disk inode) }
    ensures untouched { (s : Sizes) → IsInode s inode
        → IfOk result (λ o. IfSome o IsUntouched) }
    ensures stands { (detail : Detail) (s : Sizes) (disk : ℕ → List ℕ) (inodes : ℕ)
        (found : Option Node) → IsHeldFile detail s (held disk inode) → IsOrdinary inode.kind
        → StandsForIn detail inodes (held_content disk inode) found
        → IfOk result (λ o. IsObjectOrNone detail disk inodes inode o found) }
{
    match inode.kind {
        Kind::Free => Ok(None),
        _ => {
            let object = Object::load(alloc, inode)?;
            Ok(Some(object))
        }
    }
}
