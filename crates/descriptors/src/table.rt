//! The table of open files.

ghost use Rattle.std.specs.Prelude.{ℕ, ◌≡◌, ◌≤◌, ◌<◌, Some, None, IfSome, IsFalse, IsSome, OnOk, min};
ghost use Rattle.std.specs.Option.{option_map};
ghost use Rattle.model.specs.Outcomes.{lowest_free};
ghost use Rattle.model.specs.Records.{count_orphans};
ghost use Rattle.model.specs.Steps.{has_open_below};
ghost use Rattle.model.specs.Trees.{Tree};
ghost use Rattle.model.specs.Volumes.{IsMounted, IsVolume, Volume, is_open};
ghost use Rattle.model.specs.declared.limits.Limits.{Limits};
ghost use Rattle.model.specs.declared.limits.TheConstants.{GREATEST_OFFSET, OPEN_FILES};
ghost use Rattle.descriptors.specs.Consistency.{AreConsistent, AreConsistent-prop};
ghost use Rattle.descriptors.specs.Files.{KeepsBounds, description_of, refigured_file, relinked_file, resized_file, with_figure_links, with_size};
ghost use Rattle.descriptors.specs.Shared.{shared_at};
ghost use Rattle.descriptors.specs.Slots.{slot_at};
ghost use Rattle.descriptors.specs.declared.open_file.OpenFile.{OpenFile};

use crate::OpenFile;
use crate::shared::{SharedFile, SharedFiles};
use crate::slots::Slots;
use model::OPEN_FILES;
use std::alloc::{AllocError, Global};

/// The open files, by their descriptors.
#[derive(Drop)]
pub struct Descriptors {
    slots: Slots,
    files: SharedFiles,
    ghost consistent: { AreConsistent (slot_at slots) (shared_at files) } by { AreConsistent-prop (slot_at slots) (shared_at files) },
}

impl Descriptors {
    ghost use Rattle.descriptors.specs.Fits.{ChangesFigures, FitsVolume, IsFileOf};
    ghost use Rattle.descriptors.specs.Tables.{HasRoom, KeepsRoom, moved_to, open_at, put_open, table_of};

    /// The table with no file open. It takes no memory beside its own.
    pub fn new(alloc: Global) -> Descriptors
        ensures closed { (fd : ℕ) → open_at result fd ≡ None }
        ensures fits { (v : Volume) → FitsVolume result v }
    {
        Descriptors {
            slots: Slots::new(alloc),
            files: SharedFiles::new(alloc),
        }
    }

    /// The open file of a descriptor, if it is open.
    pub fn get(&self, fd: u32) -> Option<OpenFile>
        ensures file { result ≡ open_at self.now fd }
        ensures within { IfSome result KeepsBounds }
    {
        let description = self.slots.get(fd)?;
        let file = self.files.get(description.number)?;
        Some(OpenFile::of(description, file))
    }

    /// Whether a descriptor is open for the file with a number.
    pub fn is_open(&self, number: u32) -> bool
        ensures { result ≡ is_open (table_of self.now) OPEN_FILES number }
    {
        self.files.get(number).is_some()
    }

    /// Whether any file is open.
    pub fn has_open(&self) -> bool
        ensures tells { (t : Tree) → t.descriptors ≡ table_of self.now
            → result ≡ has_open_below t OPEN_FILES }
        ensures closed { IsFalse result → (fd : ℕ) → open_at self.now fd ≡ None }
    {
        !self.files.is_empty()
    }

    /// How many files with no name are open, each counted once: of a mounted volume, all its files
    /// that have no name.
    pub fn open_orphans(&self) -> u32
        ensures few { result ≤ OPEN_FILES }
        ensures counted { (limits : Limits) (v : Volume) → IsVolume limits v
            → IsMounted v (table_of self.now) → FitsVolume self.now v
            → result ≡ count_orphans limits.inodes v }
    {
        self.files.orphans() as u32
    }

    /// The lowest descriptor that is free, below a number; None where all these are open.
    pub fn lowest_free(&self, below: u32) -> Option<u32>
        ensures lowest { result ≡ lowest_free (table_of self.now) (min below OPEN_FILES) }
        ensures within { IfSome result (λ fd. fd < OPEN_FILES) }
        ensures free { IfSome result (λ fd. open_at self.now fd ≡ None) }
    {
        let fd = self.slots.lowest_free();
        if fd < below.min(OPEN_FILES) {
            Some(fd)
        } else {
            None
        }
    }

    /// Takes the memory for a file to be opened at a descriptor. Nothing else changes.
    pub fn make_room(&mut self, fd: u32) -> Result<(), AllocError>
        requires { fd < OPEN_FILES }
        ensures room { OnOk result (HasRoom self.new fd) }
        ensures keeps { KeepsRoom self.old self.new }
        ensures files { (d : ℕ) → open_at self.new d ≡ open_at self.old d }
        ensures table { table_of self.new ≡ table_of self.old }
        ensures fits { (v : Volume) → FitsVolume self.old v → FitsVolume self.new v }
    {
        self.slots.make_room(fd)?;
        self.files.make_room()
    }

    /// Opens a file at a descriptor that is free. The file's size and links are then these for all
    /// its descriptors.
    pub fn open(&mut self, fd: u32, file: OpenFile)
        requires room { HasRoom self.old fd }
        requires free { open_at self.old fd ≡ None }
        requires bounds { KeepsBounds file }
        ensures files { (d : ℕ) → open_at self.new d ≡ put_open fd (Some file)
            (λ e. option_map (refigured_file file) (open_at self.old e)) d }
        ensures table { table_of self.new
            ≡ put_open fd (Some (description_of file)) (table_of self.old) }
        ensures fits { (v : Volume) → FitsVolume self.old v → IsFileOf v file
            → FitsVolume self.new v }
    {
        let shared = SharedFile {
            openings: self.files.openings(file.number) + 1,
            size: file.size,
            links: file.links,
        };
        self.slots.open(fd, file.description());
        self.files.put(file.number, shared);
    }

    /// Frees a descriptor, and gives the file that was open there; None, and nothing changes, where
    /// it was free. It takes no memory.
    pub fn close(&mut self, fd: u32) -> Option<OpenFile>
        ensures closed { result ≡ open_at self.old fd }
        ensures keeps { KeepsRoom self.old self.new }
        ensures files { (d : ℕ) → open_at self.new d ≡ put_open fd None (open_at self.old) d }
        ensures table { table_of self.new ≡ put_open fd None (table_of self.old) }
        ensures fits { (v : Volume) → FitsVolume self.old v → FitsVolume self.new v }
    {
        let description = self.slots.get(fd)?;
        let file = self.files.get(description.number)?;
        self.slots.close(fd);
        self.files.release(description.number, file);
        Some(OpenFile::of(description, file))
    }

    /// Moves the offset of a descriptor that is open.
    pub fn set_offset(&mut self, fd: u32, offset: u64)
        requires open { IsSome (open_at self.old fd) }
        requires within { offset ≤ GREATEST_OFFSET }
        ensures keeps { KeepsRoom self.old self.new }
        ensures files { (d : ℕ) (f : OpenFile) → open_at self.old fd ≡ Some f
            → open_at self.new d
            ≡ put_open fd (Some (record f { offset = offset })) (open_at self.old) d }
        ensures table { (f : OpenFile) → open_at self.old fd ≡ Some f → table_of self.new
            ≡ put_open fd (Some (record (description_of f) { offset = offset }))
            (table_of self.old) }
        ensures moved { table_of self.new ≡ moved_to fd offset (table_of self.old) }
        ensures mounted { (v : Volume) → IsMounted v (table_of self.old)
            → IsMounted v (table_of self.new) }
        ensures fits { (v : Volume) → FitsVolume self.old v → FitsVolume self.new v }
    {
        if let Some(mut description) = self.slots.get(fd) {
            description.offset = offset;
            self.slots.change(fd, description);
        }
    }

    /// Notes that the file with a number has so many bytes now.
    pub fn resized(&mut self, number: u32, size: u64)
        requires { size ≤ GREATEST_OFFSET }
        ensures keeps { KeepsRoom self.old self.new }
        ensures files { (fd : ℕ) → open_at self.new fd
            ≡ option_map (resized_file number size) (open_at self.old fd) }
        ensures table { table_of self.new ≡ table_of self.old }
        ensures fits { (v w : Volume) → FitsVolume self.old v
            → ChangesFigures self.old number (with_size size) v w → FitsVolume self.new w }
    {
        if let Some(mut file) = self.files.get(number) {
            file.size = size;
            self.files.change(number, file);
        }
    }

    /// Notes that the file with a number has so many names now.
    pub fn relinked(&mut self, number: u32, links: u32)
        ensures keeps { KeepsRoom self.old self.new }
        ensures files { (fd : ℕ) → open_at self.new fd
            ≡ option_map (relinked_file number links) (open_at self.old fd) }
        ensures table { table_of self.new ≡ table_of self.old }
        ensures fits { (v w : Volume) → FitsVolume self.old v
            → ChangesFigures self.old number (with_figure_links links) v w → FitsVolume self.new w }
    {
        if let Some(mut file) = self.files.get(number) {
            file.links = links;
            self.files.change(number, file);
        }
    }
}
