//! Set 0 of the map, the blocks of the active tree.

ghost use Rattle.std.specs.Prelude.{◌<◌, All, OnOk, length};
ghost use Rattle.conspoint.specs.Marks.{AreMarked};
ghost use Rattle.conspoint.specs.Steps.{Marks};

use crate::draft::Draft;
use crate::error::PlanError;
use layout::BlockNumber;

/// Puts blocks into the active tree's set, or takes them out.
pub fn mark_all(draft: &mut Draft, blocks: &[BlockNumber], is_in: bool) -> Result<(), PlanError>
    requires { All (λ b. b < draft.old.map.count) blocks.now }
    ensures step { Marks draft.old draft.new result }
    ensures marked { OnOk result (AreMarked blocks.now (length blocks.now) is_in
        draft.old.map.parts.items draft.new.map.parts.items) }
{
    for i in 0..blocks.len() {
        draft.mark(blocks[i], is_in)?;
    }
    Ok(())
}
