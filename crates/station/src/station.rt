//! A disk and an NVRAM as the file system sees them.

ghost use Rattle.std.specs.Prelude.{◌≡◌, ◌+◌, ◌*◌, ◌<◌, ◌≤◌, length, take, drop, OnOk, IfOk};
ghost use Rattle.station.specs.Images.{Unchanged, SectorsWritten, SomeSectorsWritten, NvramWritten, NvramPrefixWritten, Tells};
ghost use Rattle.station.specs.Moments.{Meaning, MayLeave, Shows, EachCut, LeavesJust, FitsNumbers, HasSizes, SeenGoes, LeftGoes};
ghost use Rattle.station.specs.Calls.{ReadCall, WriteCall};

use thiserror::Error;

/// Bytes of a sector, the unit that a power cut leaves whole.
pub const SECTOR_BYTES: usize = 512;

/// Bytes of a block: eight sectors.
pub const BLOCK_BYTES: usize = 4096;

/// A device call failed. The station counts it.
#[derive(Clone, Copy, Debug, PartialEq, Eq, Error)]
#[error("a device call failed")]
pub struct DeviceFault;

/// A disk of sectors of 512 bytes and an NVRAM. A *device write* is one `write_sector`,
/// `write_block` or `nv_write`; a power cut comes before, within or after one. Every call may fail.
/// The words that the clauses below use speak of a station that is *honest*, which means that it
/// keeps to the device's rules:
/// - a read gives the last value written, or tells that the sector can't be read, which isn't a
///   failure;
/// - a cut leaves in each sector, independently of the others, its settled value or one written
///   since the last sync
///   that succeeded; a sector that was written since then may also be one that can't be read, and stays so until it is
///   written again;
/// - a disk write that failed counts as written; each of its sectors then has the old value, or the
///   new one, or can't be
///   read, the same until it is written again;
/// - an NVRAM write that succeeded is kept, and one that was cut off or failed keeps a beginning of
///   its bytes. Of one
///   that failed, reads may give another beginning than a cut leaves, until a sync succeeds or the bytes are written
///   again;
/// - a sync that succeeds makes durable what reads give, of the disk and of the NVRAM: a cut now
///   leaves just that. One that
///   failed makes nothing durable for certain.
pub trait Station {
    /// What is known of the station.
    ghost meaning: { Self → Meaning };

    /// How many sectors the disk has.
    fn sectors(&self) -> u64
        ensures { result ≡ (meaning self.now).sectors };

    /// How many bytes the NVRAM has.
    fn nv_bytes(&self) -> u32
        ensures { result ≡ (meaning self.now).nvram_bytes };

    /// Reads sector `n`, and tells whether it can be read.
    fn read_sector(&mut self, n: u64, out: &mut [u8; 512]) -> Result<bool, DeviceFault>
        requires { n < (meaning self.old).sectors }
        ensures call { ReadCall (meaning self.old) (meaning self.new) result }
        ensures bytes { IfOk result (λ is.
            Shows (meaning self.old) (λ c. Tells is out.new (c.disk n))) };

    /// Writes sector `n`.
    fn write_sector(&mut self, n: u64, bytes: &[u8; 512]) -> Result<(), DeviceFault>
        requires { n < (meaning self.old).sectors }
        ensures call { WriteCall (SomeSectorsWritten n bytes.now)
            (meaning self.old) (meaning self.new) result }
        ensures written { OnOk result
            (SeenGoes (SectorsWritten n bytes.now) (meaning self.old) (meaning self.new)) };

    /// Writes block `b`, the eight sectors from sector `8 * b` on.
    fn write_block(&mut self, b: u32, bytes: &[u8; 4096]) -> Result<(), DeviceFault>
        requires { 8 * b + 8 ≤ (meaning self.old).sectors }
        ensures call { WriteCall (SomeSectorsWritten (8 * b) bytes.now)
            (meaning self.old) (meaning self.new) result }
        ensures written { OnOk result (SeenGoes (SectorsWritten (8 * b) bytes.now)
            (meaning self.old) (meaning self.new)) };

    /// Makes durable what reads give, of the disk and of the NVRAM: a cut now leaves just that.
    fn sync(&mut self) -> Result<(), DeviceFault>
        ensures call { WriteCall Unchanged (meaning self.old) (meaning self.new) result }
        ensures settled { OnOk result (LeavesJust (meaning self.new) (meaning self.old).seen) };

    /// Reads the NVRAM from byte `at` on.
    fn nv_read(&mut self, at: u32, out: &mut [u8]) -> Result<(), DeviceFault>
        requires { at + length out.old ≤ (meaning self.old).nvram_bytes }
        ensures call { ReadCall (meaning self.old) (meaning self.new) result }
        ensures bytes { OnOk result
            (Shows (meaning self.old) (λ c. out.new ≡ take (length out.old) (drop at c.nvram))) };

    /// Writes to the NVRAM from byte `at` on.
    fn nv_write(&mut self, at: u32, bytes: &[u8]) -> Result<(), DeviceFault>
        requires { at + length bytes.now ≤ (meaning self.old).nvram_bytes }
        ensures call { WriteCall (NvramPrefixWritten at bytes.now)
            (meaning self.old) (meaning self.new) result }
        ensures written { OnOk result
            (SeenGoes (NvramWritten at bytes.now) (meaning self.old) (meaning self.new)) }
        ensures kept { OnOk result
            (LeftGoes (NvramWritten at bytes.now) (meaning self.old) (meaning self.new)) };

    /// The disk's bytes fit 64 bits, and the NVRAM's 32.
    ghost sizes_fit: { (s : Self) → FitsNumbers (meaning s) };

    /// What reads give is among what a cut now may leave.
    ghost seen_may_be_left: { (s : Self)
        → (meaning s).is_honest → MayLeave (meaning s) (meaning s).seen };

    /// Whatever a cut may leave, and so what reads give, has the station's sizes.
    ghost sized: { (s : Self) → EachCut (meaning s) (HasSizes (meaning s)) };
}
