//! Changing attributes of the object with a number.

ghost use Rattle.std.specs.Prelude.{◌≡◌};
ghost use Rattle.layout.specs.StateLimits.{limits_of};
ghost use Rattle.model.specs.Attributes.{AreAttributes, KeepsTime};
ghost use Rattle.model.specs.Changing.{changes_attributes};
ghost use Rattle.model.specs.Volumes.{tree_of};
ghost use Rattle.paths.specs.Numbers.{IsInodeNumber};
ghost use Rattle.calls.specs.Attributes.{MayChange, MayGet, attributes_by};
ghost use Rattle.calls.specs.Changing.{Comes};
ghost use Rattle.calls.specs.Preparing.{Prepares};

use crate::{Changing, OwnedChange};
use buffers::Blocks;
use inofile::InodeFile;
use layout::InodeNumber;
use model::{Attributes, Mode, Permissions, Time, records_change_trees};
use records::{Failure, attributes_at, prepare_attributes};
use std::alloc::Global;

/// What of an object's attributes a call changes.
#[derive(Clone, Copy)]
pub enum NewAttributes {
    Mode(Mode),
    /// Each where it is given.
    Owners {
        owner: Option<u32>,
        group: Option<u32>,
    },
    /// The time of its data.
    Modified(Time),
}

impl NewAttributes {
    // Attributes with this changed.
    fn in_place(self, old: Attributes) -> Attributes
        ensures changes { result ≡ attributes_by self old }
        ensures limits { AreAttributes result }
    {
        let given = match self {
            NewAttributes::Mode(mode) => old.with_mode(mode),
            NewAttributes::Owners { owner, group } => Attributes {
                owner: owner.unwrap_or(old.owner),
                group: group.unwrap_or(old.group),
                ..old
            },
            NewAttributes::Modified(modified) => Attributes { modified, ..old },
        };
        let result = given;
        // Its types hold it to its limits.
        given.fit();
        result
    }
}

/// Changes attributes of the object with a number, as far as nothing of it is seen yet: prepares
/// its record, which has what stays as it is too. NoMemory; Device where a read failed; Damaged where
/// a block on the way is outside its format.
pub fn change_attributes<B: Blocks>(
    alloc: Global,
    inodes: &mut InodeFile,
    blocks: &mut B,
    now: Option<Time>,
    number: InodeNumber,
    new: NewAttributes,
) -> Result<Changing, Failure>
    requires now { KeepsTime (limits_of inodes.old.geometry).has_attributes now }
    requires number { IsInodeNumber inodes.old.geometry.inodes number }
    requires may { MayChange now new }
    ensures { Prepares now B.Blocks blocks.old blocks.new inodes.old inodes.new
        (λ limits v table r. MayGet (v number) new
        → Comes (changes_attributes now (tree_of v table) number (attributes_by new)) limits v table
        r) result }
{
    records_change_trees();
    let old = attributes_at(alloc, inodes, blocks, number)?;
    let given = new.in_place(old);
    let Attributes {
        mode,
        owner,
        group,
        modified,
        ..
    } = given;
    let permissions = Permissions { mode, owner, group };
    let (time, said, data) = (now, permissions, modified);
    let prepared = prepare_attributes(alloc, inodes, blocks, now, number, permissions, modified)?;
    Ok(Changing {
        time,
        change: OwnedChange::ChangeAttributes {
            number,
            permissions: said,
            modified: data,
        },
        prepared,
    })
}
