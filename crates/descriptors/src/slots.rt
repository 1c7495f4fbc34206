//! What each descriptor is open by.

ghost use Rattle.std.specs.Prelude.{ℕ, ◌≡◌, ◌+◌, ◌*◌, ◌/◌, ◌≤◌, ◌<◌, Some, None, IsSome, OnOk, if◌then◌else◌, is_ok, length, slice_index, slice_index_or, vec_len};
ghost use Rattle.model.specs.declared.limits.TheConstants.{OPEN_FILES};
ghost use Rattle.descriptors.specs.Openings.{open_of_chunk};

use crate::description::OpenDescription;
use model::OPEN_FILES;
use std::alloc::{AllocError, Global};

/// So many descriptors are counted together: where one is free among these, it is looked for there.
const CHUNK: u32 = 256;

/// So many chunks are counted.
const CHUNKS: usize = 256;

/// What each descriptor is open by. It takes memory up to the highest descriptor that was open.
#[derive(Drop)]
pub(crate) struct Slots {
    slots: Vec<Option<OpenDescription>>,
    // How many descriptors of each chunk are open.
    open_in: [u32; CHUNKS],
    ghost few: { vec_len slots ≤ OPEN_FILES },
    ghost chunks: { length open_in ≡ 256 },
    ghost counted: { (chunk : ℕ) → chunk < 256 → slice_index open_in chunk
        ≡ open_of_chunk (λ fd. slice_index_or slots.items fd None) chunk },
}

impl Slots {
    ghost use Rattle.descriptors.specs.Slots.{room_in, slot_at};
    ghost use Rattle.descriptors.specs.Putting.{put_open};

    /// No descriptor is open.
    pub(crate) fn new(alloc: Global) -> Slots
        ensures { (fd : ℕ) → slot_at result fd ≡ None }
    {
        Slots {
            slots: Vec::new(alloc),
            open_in: [0; CHUNKS],
        }
    }

    /// What a descriptor is open by.
    pub(crate) fn get(&self, fd: u32) -> Option<OpenDescription>
        ensures { result ≡ slot_at self.now fd }
    {
        if fd as usize >= self.slots.len() {
            return None;
        }
        self.slots[fd as usize]
    }

    /// The lowest descriptor that is free.
    pub(crate) fn lowest_free(&self) -> u32
        ensures below { (fd : ℕ) → fd < result → IsSome (slot_at self.now fd) }
        ensures free { slot_at self.now result ≡ None }
    {
        for chunk in 0..CHUNKS {
            if self.open_in[chunk] < CHUNK {
                return self.lowest_in(chunk as u32);
            }
        }
        OPEN_FILES
    }

    // The same in a chunk that has one.
    fn lowest_in(&self, chunk: u32) -> u32
        requires within { chunk < 256 }
        requires some { open_of_chunk (slot_at self.now) chunk < 256 }
        ensures from { 256 * chunk ≤ result }
        ensures below { (fd : ℕ) → 256 * chunk ≤ fd → fd < result → IsSome (slot_at self.now fd) }
        ensures free { slot_at self.now result ≡ None }
    {
        for place in 0..CHUNK {
            let fd = CHUNK * chunk + place;
            if self.get(fd).is_none() {
                return fd;
            }
        }
        unreachable!()
    }

    /// Takes memory for a descriptor.
    pub(crate) fn make_room(&mut self, fd: u32) -> Result<(), AllocError>
        requires { fd < OPEN_FILES }
        ensures same { (d : ℕ) → slot_at self.new d ≡ slot_at self.old d }
        ensures room { OnOk result (fd < room_in self.new) }
        ensures grows { room_in self.old ≤ room_in self.new }
    {
        let room = fd as usize + 1;
        for _count in self.slots.len()..room {
            self.make_room_for_one()?;
        }
        Ok(())
    }

    // The same for one more.
    fn make_room_for_one(&mut self) -> Result<(), AllocError>
        requires { room_in self.old < OPEN_FILES }
        ensures same { (d : ℕ) → slot_at self.new d ≡ slot_at self.old d }
        ensures room { room_in self.new
            ≡ (if is_ok result then room_in self.old + 1 else room_in self.old) }
    {
        self.slots.push(None)?;
        Ok(())
    }

    /// Opens a descriptor that is free.
    pub(crate) fn open(&mut self, fd: u32, description: OpenDescription)
        requires room { fd < room_in self.old }
        requires free { slot_at self.old fd ≡ None }
        ensures slots { (d : ℕ) → slot_at self.new d
            ≡ put_open fd (Some description) (slot_at self.old) d }
        ensures room { room_in self.new ≡ room_in self.old }
    {
        self.slots[fd as usize] = Some(description);
        self.open_in[(fd / CHUNK) as usize] += 1;
    }

    /// Frees a descriptor that is open.
    pub(crate) fn close(&mut self, fd: u32)
        requires { IsSome (slot_at self.old fd) }
        ensures slots { (d : ℕ) → slot_at self.new d ≡ put_open fd None (slot_at self.old) d }
        ensures room { room_in self.new ≡ room_in self.old }
    {
        self.slots[fd as usize] = None;
        self.open_in[(fd / CHUNK) as usize] -= 1;
    }

    /// Changes what a descriptor is open by.
    pub(crate) fn change(&mut self, fd: u32, description: OpenDescription)
        requires { IsSome (slot_at self.old fd) }
        ensures slots { (d : ℕ) → slot_at self.new d
            ≡ put_open fd (Some description) (slot_at self.old) d }
        ensures room { room_in self.new ≡ room_in self.old }
    {
        self.slots[fd as usize] = Some(description);
    }
}
