//! One bit of an entry.

ghost use Rattle.std.specs.Prelude.{◌<◌, ◌↔◌, IsTrue};
ghost use Rattle.blockmap.specs.Bits.{HasBit, SetsBit};

/// Whether the entry's block is in this set.
pub fn has_bit(entry: u32, set: u32) -> bool
    requires { set < 32 }
    ensures { IsTrue result ↔ HasBit set entry }
{
    (entry >> set) % 2 == 1
}

/// The entry with its block in this set or out of it.
pub fn with_bit(entry: u32, set: u32, is_in: bool) -> u32
    requires { set < 32 }
    ensures { SetsBit set is_in entry result }
{
    if is_in {
        entry | 1 << set
    } else {
        entry & !(1 << set)
    }
}
