//! A mounted system.

ghost use Rattle.std.specs.Prelude.{◌≡◌, ◌+◌, ◌*◌, ◌≤◌, ◌^◌};
ghost use Rattle.layout.specs.Root.{IsRoot};
ghost use Rattle.blockmap.specs.Maps.{free_below};
ghost use Rattle.oplog.specs.LogEnd.{next_of};
ghost use Rattle.records.specs.Opened.{HasNumbers};
ghost use Rattle.replay.specs.declared.costs.TheConstants.{MOST_COST};
ghost use Rattle.system.specs.Props.{IsRoot-prop};

use crate::snapshot_view::View;
use blockmap::BlockMap;
use descriptors::Descriptors;
use inofile::InodeFile;
use layout::Root;
use model::Session;
use oplog::Log;
use overlay::Overlay;
use station::Station;
use std::alloc::Global;

/// What a mounted system has in memory, and its station.
#[derive(Drop)]
pub struct System<S: Station> {
    pub alloc: Global,
    /// Those of the disk, and over them those of the consistency point that is under way.
    pub blocks: Overlay<S>,
    /// The root that memory stands on: that of the point under way, or else the newest one.
    pub root: Root,
    /// The sector of the slot that it stands in.
    pub(crate) slot: u64,
    pub inodes: InodeFile,
    /// The view of a snapshot that was loaded last, until the next consistency point.
    pub view: Option<View>,
    pub(crate) map: BlockMap,
    pub(crate) log: Log,
    /// Blocks that a consistency point may store for what the newest root doesn't cover.
    pub(crate) pledged: u64,
    /// Those of them that stay pledged behind the point under way.
    pub(crate) pledged_then: u64,
    /// Blocks that are free under the newest root.
    pub(crate) free: u32,
    /// The files that are open.
    pub files: Descriptors,
    /// What the session says of its calls.
    pub session: Session,
    ghost sectors: { (S.meaning blocks.buffers.station).sectors ≡ 8 * root.geometry.blocks },
    ghost nvram: { (S.meaning blocks.buffers.station).nvram_bytes ≡ 2 * log.half },
    ghost half: { log.half ≡ root.geometry.half },
    ghost sizes: { inodes.geometry ≡ root.geometry },
    ghost count: { map.count ≡ root.geometry.blocks },
    ghost counted: { free ≡ free_below map.parts.items map.count },
    ghost few: { pledged_then ≤ 2 ^ 32 + MOST_COST * next_of log.end },
    ghost numbers: { HasNumbers inodes.geometry.inodes files },
    ghost is_root: { IsRoot root } by { IsRoot-prop root },
}

impl<S: Station> System<S> {
    /// The station, to look at.
    pub fn station(&self) -> &S
        ensures { result.now ≡ self.now.blocks.buffers.station }
    {
        &self.blocks.buffers.station
    }

    /// The station as it stands, with no device call.
    pub fn into_station(self) -> S
        ensures { result ≡ self.blocks.buffers.station }
    {
        let System { blocks, .. } = self;
        blocks.buffers.into_station()
    }
}
