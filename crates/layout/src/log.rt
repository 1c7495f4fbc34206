//! The halves of the NVRAM: a header of a gate and an epoch, and then records, each a gate, its
//! body's length in four bytes and its body. A gate is 1 where it is open and 0 where it is closed;
//! the first closed one ends the records.

ghost use Rattle.std.specs.Prelude.{◌∷◌};
ghost use Rattle.layout.specs.Gates.{HeaderIs, GateIs};

use crate::Epoch;
use byteorder::{ByteOrder, LittleEndian};

/// A closed gate.
pub const CLOSED: u8 = 0;

/// An open gate.
pub const OPEN: u8 = 1;

/// Where the header's gate stands in a half.
pub const HEADER_GATE: u32 = 0;

/// Where the epoch stands in a half, behind the header's gate.
pub const EPOCH_AT: u32 = 1;

/// Where the first record's gate stands in a half.
pub const FIRST_GATE: u32 = 9;

/// Bytes of a half's header: its gate and its epoch.
pub const HEADER_BYTES: usize = 9;

/// Bytes of a record's length, behind its gate.
pub const LENGTH_BYTES: usize = 4;

/// Bytes of a record's gate and length.
pub const RECORD_HEAD_BYTES: usize = 5;

/// What a half's header says.
#[derive(Clone, Copy)]
pub enum Header {
    /// The half holds nothing, whatever stands behind its gate.
    Closed,
    /// The half holds the records of this epoch.
    Open(Epoch),
}

impl Header {
    /// Reads a half's header; None where its gate is no gate.
    pub fn read(bytes: &[u8; HEADER_BYTES]) -> Option<Header>
        ensures { HeaderIs bytes.now result }
    {
        match bytes[0] {
            CLOSED => Some(Header::Closed),
            OPEN => Some(Header::Open(Epoch::new(LittleEndian::read_u64(&bytes[1..])))),
            _ => None,
        }
    }
}

/// What stands at a record's gate.
#[derive(Clone, Copy)]
pub enum Gate<'a> {
    /// The records end here.
    Closed,
    /// A record with this body, and the bytes from the next gate on.
    Open { body: &'a [u8], rest: &'a [u8] },
    /// No gate, or a record that is longer than what is there.
    Malformed,
}

/// What stands at the record's gate that these bytes begin with.
pub fn read_gate(bytes: &[u8]) -> Gate<'_>
    ensures { GateIs bytes.now result }
{
    match bytes {
        [] => Gate::Malformed,
        [gate, behind @ ..] => read_behind(*gate, behind),
    }
}

/// What stands at a gate, with the bytes behind it.
fn read_behind(gate: u8, behind: &[u8]) -> Gate<'_>
    ensures { GateIs (gate ∷ behind.now) result }
{
    if gate == CLOSED {
        Gate::Closed
    } else if gate == OPEN {
        read_record(behind)
    } else {
        Gate::Malformed
    }
}

/// The record whose open gate these bytes stand behind.
fn read_record(behind: &[u8]) -> Gate<'_>
    ensures { GateIs (1 ∷ behind.now) result }
{
    if behind.len() < LENGTH_BYTES {
        return Gate::Malformed;
    }
    let (head, behind) = behind.split_at(LENGTH_BYTES);
    let length = LittleEndian::read_u32(head) as usize;
    if length > behind.len() {
        return Gate::Malformed;
    }
    let (body, rest) = behind.split_at(length);
    Gate::Open { body, rest }
}
