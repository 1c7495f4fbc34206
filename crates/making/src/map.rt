//! The block map of a disk of which no block is in use.

ghost use Rattle.std.specs.Prelude.{◌≡◌, ◌+◌, ◌*◌, ◌<◌, ◌≤◌, IfOk};
ghost use Rattle.layout.specs.declared.geometry.TheConstants.{LEAST_BLOCKS, MOST_BLOCKS};
ghost use Rattle.making.specs.Starts.{IsEmptyMap, IsEmptyPart};
ghost use Rattle.making.specs.Starts as starts;

use blockmap::{BlockMap, MapPart};
use layout::{BLOCK_BYTES, BLOCK_POINTERS, set_map_entry};
use std::alloc::{AllocError, Global};

/// The entry of a block of the system's own.
const SYSTEM_ENTRY: u32 = 0x8000_0000;

/// The entry of a block that no tree names: the first two hold the roots.
fn system_entry(block: u32) -> u32
    ensures { result ≡ starts.system_entry block }
{
    if block < 2 { SYSTEM_ENTRY } else { 0 }
}

/// Block `k` of the map, which is to be stored anew.
fn empty_part(alloc: Global, k: u32) -> Result<MapPart, AllocError>
    requires { k < 1024 }
    ensures { IfOk result (IsEmptyPart k) }
{
    let mut bytes = [0; BLOCK_BYTES];
    for i in 0..BLOCK_POINTERS as u32 {
        set_map_entry(&mut bytes, i, system_entry(1024 * k + i));
    }
    let mut part = MapPart::read(alloc, &bytes)?;
    part.touch()?;
    Ok(part)
}

/// The map of a disk of so many blocks, all of which is to be stored.
pub(crate) fn empty_map(alloc: Global, blocks: u32) -> Result<BlockMap, AllocError>
    requires least { LEAST_BLOCKS ≤ blocks }
    requires most { blocks ≤ MOST_BLOCKS }
    ensures { IfOk result (IsEmptyMap blocks) }
{
    let mut parts = Vec::new(alloc);
    for k in 0..blocks.div_ceil(1024) {
        parts.push(empty_part(alloc, k)?)?;
    }
    Ok(BlockMap::new(parts, blocks))
}
