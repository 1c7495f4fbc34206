//! A look at one block of a directory.

ghost use Rattle.std.specs.Prelude.{◌≡◌, ◌≤◌, ◌*◌, List, IfOk, IfErr, IfSome, IfNone, OnErr, length};
ghost use Rattle.layout.specs.Directory.{Named, HoldsEntries};
ghost use Rattle.buffers.specs.declared.error.BlockError.TheVariants.{Damaged};
ghost use Rattle.entries.specs.Entries.{IsObjectNumber};
ghost use Rattle.entries.specs.Looks.{TellsEntries, IsLikely};

use buffers::BlockError;
use layout::{BLOCK_BYTES, NextEntry, next_entry};

/// What a look at a block tells.
#[derive(Clone, Copy, Debug)]
pub struct Look {
    /// What the name that is looked for stands for, where it stands in this block.
    pub number: Option<u32>,
    /// Entries of the block.
    pub names: u32,
    /// Bytes of its entries.
    pub used: u32,
}

/// Looks at a block for a name; Damaged where it is outside its grammar.
pub(crate) fn look_at(
    bytes: &[u8; BLOCK_BYTES],
    inodes: u32,
    name: &[u8],
) -> Result<Look, BlockError>
    ensures tells { IfOk result (TellsEntries inodes bytes.now name.now) }
    ensures ordinary { IfOk result (λ l. IfSome l.number (IsObjectNumber inodes)) }
    ensures likely { IfOk result IsLikely }
    ensures damaged { OnErr result ((entries : List Named) →
        HoldsEntries inodes bytes.now entries → ⊥) }
    ensures only { IfErr result (λ e. e ≡ Damaged) }
{
    let Some(look) = look_from(bytes, inodes, name) else {
        return Err(BlockError::Damaged);
    };
    Ok(look)
}

// Looks at the bytes from an entry's place on; None where they are outside the grammar.
fn look_from(bytes: &[u8], inodes: u32, name: &[u8]) -> Option<Look>
    requires { length bytes.now ≤ 4096 }
    ensures tells { IfSome result (TellsEntries inodes bytes.now name.now) }
    ensures ordinary { IfSome result (λ l. IfSome l.number (IsObjectNumber inodes)) }
    ensures within { IfSome result (λ l. l.names ≤ length bytes.now) }
    ensures small { IfSome result (λ l. l.used ≤ 260 * l.names) }
    ensures damaged { IfNone result ((entries : List Named) →
        HoldsEntries inodes bytes.now entries → ⊥) }
{
    match next_entry(bytes, inodes) {
        NextEntry::End => Some(Look {
            number: None,
            names: 0,
            used: 0,
        }),
        NextEntry::Malformed => None,
        NextEntry::Entry { entry, rest } => {
            let Some(behind) = look_from(rest, inodes, name) else {
                return None;
            };
            let used = behind.used + entry.encoded_len() as u32;
            let number = if name == entry.name {
                Some(entry.number.get())
            } else {
                behind.number
            };
            Some(Look {
                number,
                names: behind.names + 1,
                used,
            })
        }
    }
}
