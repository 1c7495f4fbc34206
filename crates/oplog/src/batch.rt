//! Records that wait to be appended together.

ghost use Rattle.std.specs.Prelude.{◌≡◌, ◌+◌, ◌≤◌, ◌∷◌, ◌++◌, [], ℕ, List, IsTrue, OnErr, OnOk, length, ◌↔◌};
ghost use Rattle.layout.specs.Record.{KeepsLimits, change_of};
ghost use Rattle.layout.specs.declared.geometry.TheConstants.{MOST_HALF};
ghost use Rattle.layout.specs.declared.log.TheConstants.{RECORD_HEAD_BYTES};
ghost use Rattle.oplog.specs.Batches.{IsBatchOf};
ghost use Rattle.oplog.specs.LogEnd.{logged_body};

use crate::append::behind_the_gate;
use layout::{OPEN, Record};
use std::alloc::{AllocError, Global};
use std::marker::Model;

/// Records that wait to be appended together, in their order. They stand in memory alone until
/// `Log::append_all` appends them.
#[derive(Debug, Drop)]
pub struct Batch {
    /// What is to stand behind the gate of the first: its length and body, then each further record
    /// behind its gate, which is open, and then a closed gate. Nothing where no record waits.
    bytes: Vec<u8>,
}

impl Model for Batch {
    ghost Value = { List ℕ };

    ghost view = { λ b. b.bytes.items };
}

impl Batch {
    /// A batch of no record.
    pub fn new(alloc: Global) -> Batch
        ensures { IsBatchOf [] result }
    {
        Batch {
            bytes: Vec::new(alloc),
        }
    }

    /// Whether no record waits.
    pub fn is_empty(&self) -> bool
        ensures { IsTrue result ↔ (self.now ≡ []) }
    {
        self.bytes.is_empty()
    }

    /// Bytes of the log that the records take.
    pub fn len(&self) -> usize
        ensures { result ≡ length self.now }
    {
        self.bytes.len()
    }

    /// Adds a record behind those that wait, where `Log::room_behind` says that it fits. Without
    /// memory nothing changes.
    pub fn add(&mut self, alloc: Global, change: &Record) -> Result<(), AllocError>
        requires fits { KeepsLimits (change_of change.now) }
        requires short { length (logged_body (change_of change.now)) ≤ MOST_HALF }
        ensures added { (bodies : List (List ℕ)) → IsBatchOf bodies self.old
            → OnOk result (IsBatchOf (bodies ++ logged_body (change_of change.now) ∷ []) self.new) }
        ensures longer { OnOk result (length self.new
            ≡ length self.old + RECORD_HEAD_BYTES + length (logged_body (change_of change.now))) }
        ensures refused { OnErr result (self.new ≡ self.old) }
    {
        let behind = behind_the_gate(alloc, change)?;
        if self.bytes.is_empty() {
            return self.bytes.extend_from_slice(&behind);
        }
        // Its gate is the one that was closed behind the others.
        let gate = self.bytes.len() - 1;
        self.bytes.extend_from_slice(&behind)?;
        self.bytes[gate] = OPEN;
        Ok(())
    }

    /// What is to stand behind the gate of the first.
    pub(crate) fn bytes(&self) -> &[u8]
        ensures { result.now ≡ self.now }
    {
        &self.bytes
    }

    /// No record waits any more. The memory stays for the next ones.
    pub(crate) fn clear(&mut self)
        ensures { self.new ≡ [] }
    {
        self.bytes.clear();
    }
}
