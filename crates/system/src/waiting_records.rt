//! Records that wait to be put into the log of a mounted system.

ghost use Rattle.std.specs.Prelude.{◌≡◌, ◌+◌, ◌≤◌, ◌∷◌, ◌++◌, [], ℕ, List, IsTrue, OnErr, OnOk, length, ◌↔◌};
ghost use Rattle.layout.specs.Record.{KeepsLimits, change_of};
ghost use Rattle.layout.specs.declared.geometry.TheConstants.{MOST_HALF};
ghost use Rattle.layout.specs.declared.log.TheConstants.{RECORD_HEAD_BYTES};
ghost use Rattle.oplog.specs.Batches.{IsBatchOf};
ghost use Rattle.oplog.specs.LogEnd.{logged_body};
ghost use Rattle.replay.specs.declared.costs.TheConstants.{MOST_COST};
ghost use Rattle.system.specs.Waits.{AreWaiting, Waits, none_waits};

use layout::Record;
use oplog::Batch;
use std::alloc::{AllocError, Global};
use std::marker::Model;

/// Records of changes that memory has, in their order. They wait to be put into the log together,
/// and a cut before that loses all of them.
#[derive(Debug, Drop)]
pub struct WaitingRecords {
    pub(crate) batch: Batch,
    /// Blocks that a consistency point may store for them.
    pub(crate) pledged: u64,
}

impl Model for WaitingRecords {
    ghost Value = { Waits };

    ghost view = { λ w. record { batch = w.batch; pledged = w.pledged } };

    ghost invariant = { λ w. AreWaiting w.batch w.pledged };
}

impl WaitingRecords {
    /// None waits.
    pub fn new(alloc: Global) -> WaitingRecords
        ensures { result ≡ none_waits }
    {
        WaitingRecords {
            batch: Batch::new(alloc),
            pledged: 0,
        }
    }

    /// Whether none waits.
    pub fn is_empty(&self) -> bool
        ensures empty { IsTrue result ↔ (self.now.batch ≡ []) }
        ensures none { IsTrue result → self.now ≡ none_waits }
    {
        self.batch.is_empty()
    }

    /// Bytes of the log that they take.
    pub fn len(&self) -> usize
        ensures { result ≡ length self.now.batch }
    {
        self.batch.len()
    }

    /// Blocks that a consistency point may store for them.
    pub(crate) fn pledged(&self) -> u64
        ensures { result ≡ self.now.pledged }
    {
        self.pledged
    }

    /// One more waits, and what it may cost is pledged. Without memory nothing changes.
    pub(crate) fn add(
        &mut self,
        alloc: Global,
        change: &Record,
        cost: u64,
    ) -> Result<(), AllocError>
        requires fits { KeepsLimits (change_of change.now) }
        requires few { cost ≤ MOST_COST }
        requires short { length self.old.batch + length (logged_body (change_of change.now)) ≤ MOST_HALF }
        ensures added { (bodies : List (List ℕ)) → IsBatchOf bodies self.old.batch
            → OnOk result (IsBatchOf (bodies ++ logged_body (change_of change.now) ∷ []) self.new.batch) }
        ensures longer { OnOk result (length self.new.batch ≡ length self.old.batch
            + RECORD_HEAD_BYTES + length (logged_body (change_of change.now))) }
        ensures pledges { OnOk result (self.new.pledged ≡ self.old.pledged + cost) }
        ensures refused { OnErr result (self.new ≡ self.old) }
    {
        self.batch.add(alloc, change)?;
        self.pledged += cost;
        Ok(())
    }
}
