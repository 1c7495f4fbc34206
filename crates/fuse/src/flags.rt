//! Bits of flags, and values that a bit says are given.

ghost use Rattle.std.specs.Prelude.{◌≡◌};
ghost use Rattle.fuse.specs.Flags.{given, is_set};

/// Whether one of the bits is set.
pub(crate) fn is_set(flags: u32, bit: u32) -> bool
    ensures { result ≡ is_set flags bit }
{
    flags & bit != 0
}

/// The value, where the bit says that it is given.
pub(crate) fn given<T: Copy>(flags: u32, bit: u32, value: T) -> Option<T>
    ensures { result ≡ given flags bit value }
{
    if is_set(flags, bit) {
        Some(value)
    } else {
        None
    }
}
