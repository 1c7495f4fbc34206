//! A station's disk with blocks of it kept in memory.

ghost use Rattle.std.specs.Prelude.{◌≡◌, ◌≢◌, ℕ, ◌+◌, ◌*◌, ◌/◌, ◌<◌, ◌≤◌, ◌^◌, List, OnOk, IfOk, IfErr, IsErrOf};
ghost use Rattle.std.specs.Ordering.{nat_cmp};
ghost use Rattle.std.specs.BTreeMap as tree;
ghost use Rattle.station.specs.Images.{SomeSectorsWritten, SectorsWritten, Unchanged};
ghost use Rattle.station.specs.Moments.{HasGrown, LeavesJust, SeenGoes, Shows};
ghost use Rattle.station.specs.Calls.{WriteCall};
ghost use Rattle.layout.specs.Places.{blocks_of};
ghost use Rattle.buffers.specs.Caches.{count_cached};
ghost use Rattle.buffers.specs.declared.block_cache.TheConstants.{CACHED_BLOCKS};
ghost use Rattle.buffers.specs.Disks.{IsBlock, IsDisk, IsWhole, ShowsDisk, ReadsOn, disk_with_block, disk_with_sector, numbered_blocks};

use crate::block_cache::BlockCache;
use crate::{Block, BlockError, Blocks};
use layout::{BLOCK_BYTES, BlockNumber, Layout, SECTOR_BYTES};
use station::Station;
use std::alloc::Global;

/// A station, and those blocks of its disk that are kept in memory. Those that were made resident
/// are held until they are let go of, and a cache has the last used ones of the others.
#[derive(Drop)]
pub struct Buffers<S> {
    /// Its disk is to be written by `store` and `store_sector` alone: what is kept would not change
    /// with it.
    pub station: S,
    kept: BlockCache,
    alloc: Global,
}

/// Reads a block into this one, past all that is kept. `Damaged` where a sector of it can't be
/// read.
pub fn read_sectors<S: Station>(
    station: &mut S,
    place: u32,
    block: &mut Block,
) -> Result<(), BlockError>
    requires within { 8 * place + 8 ≤ (S.meaning station.old).sectors }
    ensures reads { ReadsOn (S.meaning station.old) (S.meaning station.new) }
    ensures counted { OnOk result
        ((S.meaning station.new).failed_reads ≡ (S.meaning station.old).failed_reads) }
    ensures device { IfErr result (λ e. e ≡ BlockError.Device
        → HasGrown (S.meaning station.old).failed_reads (S.meaning station.new).failed_reads) }
    ensures block { (S.meaning station.old).is_honest
        → OnOk result (IsBlock (S.meaning station.old).seen.disk place block.new) }
    ensures damaged { IsErrOf result BlockError.Damaged
        → Shows (S.meaning station.old) (λ c. IsWhole (blocks_of c.disk place) → ⊥) }
    ensures memory { IfErr result (λ e. e ≢ BlockError.NoMemory) }
{
    block.is_whole();
    let mut sector = [0u8; SECTOR_BYTES];
    for i in 0..8u64 {
        let Ok(is_readable) = station.read_sector(8 * u64::from(place) + i, &mut sector) else {
            return Err(BlockError::Device);
        };
        if !is_readable {
            return Err(BlockError::Damaged);
        }
        block.put(512 * i as usize, &sector);
    }
    Ok(())
}

/// Reads a block. `Damaged` where a sector of it can't be read.
fn read_block<S: Station>(alloc: Global, station: &mut S, place: u32) -> Result<Block, BlockError>
    requires within { 8 * place + 8 ≤ (S.meaning station.old).sectors }
    ensures reads { ReadsOn (S.meaning station.old) (S.meaning station.new) }
    ensures counted { OnOk result
        ((S.meaning station.new).failed_reads ≡ (S.meaning station.old).failed_reads) }
    ensures device { IfErr result (λ e. e ≡ BlockError.Device
        → HasGrown (S.meaning station.old).failed_reads (S.meaning station.new).failed_reads) }
    ensures block { (S.meaning station.old).is_honest
        → IfOk result (IsBlock (S.meaning station.old).seen.disk place) }
    ensures damaged { IsErrOf result BlockError.Damaged
        → Shows (S.meaning station.old) (λ c. IsWhole (blocks_of c.disk place) → ⊥) }
{
    let mut block = Block::zeroed(alloc)?;
    read_sectors(station, place, &mut block)?;
    Ok(block)
}

impl<S: Station> Blocks for Buffers<S> {
    ghost use Rattle.buffers.specs.Readings.{reads_none};

    ghost Shows = { λ b disk. ShowsDisk (S.meaning b.station) b.kept disk };

    ghost ReadsOn = { λ a b. ReadsOn (S.meaning a.station) (S.meaning b.station) };

    ghost IsResident = { λ b place. tree.ContainsKey nat_cmp b.kept.held place };

    ghost failed = { λ b. (S.meaning b.station).failed_reads };

    ghost count = { λ b. numbered_blocks (S.meaning b.station).sectors };

    fn count(&self) -> u32 {
        (self.station.sectors() / 8).min(u64::from(u32::MAX)) as u32
    }

    fn make_resident(&mut self, place: BlockNumber) -> Result<(), BlockError> {
        let place = place.get();
        if let Some(block) = self.kept.held.get(&place) {
            block.is_whole();
            return Ok(());
        }
        let block = self.fetch(place)?;
        block.is_whole();
        self.kept.hold(place, block)?;
        Ok(())
    }

    fn bytes(&self, place: BlockNumber) -> &[u8; BLOCK_BYTES] {
        match self.kept.held.get(&place.get()) {
            Some(block) => block.bytes(),
            None => unreachable!(),
        }
    }

    fn is_indirect(&mut self, place: BlockNumber, layout: Layout, used: u32) -> bool {
        let blocks = self.count();
        self.kept.is_indirect(place.get(), layout, blocks, used)
    }

    ghost reads_nothing = { λ s. reads_none (S.meaning s.station) };
}

impl<S: Station> Buffers<S> {
    /// A station of which nothing is kept.
    pub fn new(alloc: Global, station: S) -> Buffers<S>
        ensures station { result.station ≡ station }
        ensures shows { (disk : ℕ → List ℕ) → (S.meaning station).is_honest
            → IsDisk (S.meaning station) disk
            → ShowsDisk (S.meaning result.station) result.kept disk }
    {
        Buffers {
            station,
            kept: BlockCache::new(alloc),
            alloc,
        }
    }

    /// Writes a block to its place, which then reads so. It takes no memory. Where it fails, each
    /// sector of the place may read either way, or can't be read.
    pub fn store(&mut self, place: BlockNumber, bytes: &[u8; BLOCK_BYTES]) -> Result<(), BlockError>
        requires { 8 * place + 8 ≤ (S.meaning self.old.station).sectors }
        ensures call { WriteCall (SomeSectorsWritten (8 * place) bytes.now)
            (S.meaning self.old.station) (S.meaning self.new.station) result }
        ensures written { OnOk result (SeenGoes (SectorsWritten (8 * place) bytes.now)
            (S.meaning self.old.station) (S.meaning self.new.station)) }
        ensures device { IfErr result (λ e. e ≡ BlockError.Device) }
        ensures shows { (disk : ℕ → List ℕ)
            → ShowsDisk (S.meaning self.old.station) self.old.kept disk
            → OnOk result
            (ShowsDisk (S.meaning self.new.station) self.new.kept
            (disk_with_block place bytes.now disk)) }
    {
        let place = place.get();
        self.kept.forget(place);
        match self.station.write_block(place, bytes) {
            Ok(()) => Ok(()),
            Err(_) => Err(BlockError::Device),
        }
    }

    /// The block at a place that isn't held: that of the cache, or else it is read.
    fn fetch(&mut self, place: u32) -> Result<Block, BlockError>
        requires within { 8 * place + 8 ≤ (S.meaning self.old.station).sectors }
        ensures reads { ReadsOn (S.meaning self.old.station) (S.meaning self.new.station) }
        ensures counted { OnOk result ((S.meaning self.new.station).failed_reads
            ≡ (S.meaning self.old.station).failed_reads) }
        ensures device { IfErr result (λ e. e ≡ BlockError.Device
            → HasGrown (S.meaning self.old.station).failed_reads
            (S.meaning self.new.station).failed_reads) }
        ensures held { self.new.kept.held ≡ self.old.kept.held }
        ensures same { (disk : ℕ → List ℕ)
            → ShowsDisk (S.meaning self.old.station) self.old.kept disk
            → ShowsDisk (S.meaning self.new.station) self.new.kept disk }
        ensures block { (disk : ℕ → List ℕ)
            → ShowsDisk (S.meaning self.old.station) self.old.kept disk
            → IfOk result (λ b. b ≡ disk place) }
        ensures damaged { IsErrOf result BlockError.Damaged
            → Shows (S.meaning self.old.station) (λ c. IsWhole (blocks_of c.disk place) → ⊥) }
    {
        match self.kept.take_cached(place) {
            Some(block) => Ok(block),
            None => read_block(self.alloc, &mut self.station, place),
        }
    }

    /// How many blocks the cache has.
    pub fn cached_count(&self) -> usize
        ensures count { result ≡ count_cached self.now.kept.cache }
        ensures bound { result ≤ CACHED_BLOCKS }
    {
        self.kept.cached_count()
    }

    /// Lets go of the blocks that were made resident: they have to be made resident again. The
    /// cache gets them, as far as there is memory for it.
    pub fn let_go(&mut self)
        ensures station { self.new.station ≡ self.old.station }
        ensures shows { (disk : ℕ → List ℕ)
            → ShowsDisk (S.meaning self.old.station) self.old.kept disk
            → ShowsDisk (S.meaning self.new.station) self.new.kept disk }
        ensures none { tree.IsEmpty self.new.kept.held }
    {
        self.kept.let_go();
    }

    /// Writes a sector, and its block then reads as the station has it. It takes no memory. Where
    /// it fails, the sector may read either way, or can't be read.
    pub fn store_sector(
        &mut self,
        sector: u64,
        bytes: &[u8; SECTOR_BYTES],
    ) -> Result<(), BlockError>
        requires within { sector < (S.meaning self.old.station).sectors }
        requires numbered { sector / 8 < 2 ^ 32 }
        ensures call { WriteCall (SomeSectorsWritten sector bytes.now)
            (S.meaning self.old.station) (S.meaning self.new.station) result }
        ensures written { OnOk result (SeenGoes (SectorsWritten sector bytes.now)
            (S.meaning self.old.station) (S.meaning self.new.station)) }
        ensures device { IfErr result (λ e. e ≡ BlockError.Device) }
        ensures shows { (disk : ℕ → List ℕ)
            → ShowsDisk (S.meaning self.old.station) self.old.kept disk
            → OnOk result
            (ShowsDisk (S.meaning self.new.station) self.new.kept
            (disk_with_sector (S.meaning self.new.station).seen.disk sector disk)) }
    {
        self.kept.forget((sector / 8) as u32);
        match self.station.write_sector(sector, bytes) {
            Ok(()) => Ok(()),
            Err(_) => Err(BlockError::Device),
        }
    }

    /// Makes durable what reads give. What is kept stays.
    pub fn sync(&mut self) -> Result<(), BlockError>
        ensures call { WriteCall Unchanged
            (S.meaning self.old.station) (S.meaning self.new.station) result }
        ensures settled { OnOk result (LeavesJust (S.meaning self.new.station)
            (S.meaning self.old.station).seen) }
        ensures device { IfErr result (λ e. e ≡ BlockError.Device) }
        ensures shows { (disk : ℕ → List ℕ)
            → ShowsDisk (S.meaning self.old.station) self.old.kept disk
            → ShowsDisk (S.meaning self.new.station) self.new.kept disk }
    {
        match self.station.sync() {
            Ok(()) => Ok(()),
            Err(_) => Err(BlockError::Device),
        }
    }

    /// The station.
    pub fn into_station(self) -> S
        ensures { result ≡ self.station }
    {
        let Buffers {
            station,
            kept: _kept,
            alloc: _alloc,
        } = self;
        station
    }
}
