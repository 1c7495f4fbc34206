//! The two files of an image, and what a power cut may leave of them.

ghost use Rattle.std.specs.Prelude.{◌≡◌, ℕ, ◌+◌, ◌≤◌, List, length, take, drop, OnOk};
ghost use Rattle.file_station.specs.Files.{FilesMeaning, file_of, AreSameFiles, FilesGo, ShowsFile, LeavesFile, disk_step, nvram_step, file_with, LeavesJustFile};

use std::io;

/// One of an image's two files.
#[derive(Clone, Copy, Debug, PartialEq, Eq)]
pub enum Part {
    /// The disk's sectors, one after the other.
    Disk,
    /// The NVRAM's bytes.
    Nvram,
}

/// The two files of an image, of lengths that don't change, under one clock: moments pass for both
/// together. Every call may fail. The words that the clauses below use speak of files that are
/// *honest*, which means that they keep to these rules:
/// - a read gives what was written last;
/// - a write to the disk's file that isn't synced yet, or that failed, leaves in each aligned
///   sector of 512 bytes,
///   independently of the others, what was there or what the write made of it;
/// - a write to the NVRAM's file that isn't synced yet, or that failed, leaves a beginning of its
///   bytes, from none to
///   all; reads of one that failed may give another beginning than a cut leaves;
/// - a sync of a file that succeeds makes durable what its reads give: a cut leaves just that of
///   it;
/// - a cut leaves each of the two files independently of the other.
///
/// `MemoryFiles` are honest.
pub trait ImageFiles {
    ghost use Rattle.file_station.specs.declared.image_files.Part.{Part};

    /// What is known of the files.
    ghost meaning: { Self → FilesMeaning };

    /// How many bytes a file has.
    fn len(&self, part: Part) -> u64
        ensures { result ≡ (file_of (meaning self.now) part).length };

    /// Reads from byte `at` on.
    fn read(&mut self, part: Part, at: u64, out: &mut [u8]) -> io::Result<()>
        requires { at + length out.old ≤ (file_of (meaning self.old) part).length }
        ensures same { AreSameFiles (meaning self.old) (meaning self.new) }
        ensures goes { FilesGo LeavesFile LeavesFile (meaning self.old) (meaning self.new) }
        ensures bytes { OnOk result (ShowsFile (meaning self.old) part
            (λ file. out.new ≡ take (length out.old) (drop at file))) };

    /// Writes from byte `at` on.
    fn write(&mut self, part: Part, at: u64, bytes: &[u8]) -> io::Result<()>
        requires { at + length bytes.now ≤ (file_of (meaning self.old) part).length }
        ensures same { AreSameFiles (meaning self.old) (meaning self.new) }
        ensures goes { FilesGo (disk_step part at bytes.now) (nvram_step part at bytes.now)
            (meaning self.old) (meaning self.new) }
        ensures written { OnOk result (ShowsFile (meaning self.old) part
            (λ file. (file_of (meaning self.new) part).seen ≡ file_with at bytes.now file)) };

    /// Makes durable what reads of this file give.
    fn sync(&mut self, part: Part) -> io::Result<()>
        ensures same { AreSameFiles (meaning self.old) (meaning self.new) }
        ensures goes { FilesGo LeavesFile LeavesFile (meaning self.old) (meaning self.new) }
        ensures settled { OnOk result
            (ShowsFile (meaning self.old) part (λ file. LeavesJustFile (meaning self.new) part file)) };

    /// What reads give is among what a cut now may leave.
    ghost seen_may_be_left: { (s : Self) (part : Part) → (meaning s).is_honest
        → (file_of (meaning s) part).left_at (meaning s).moment (file_of (meaning s) part).seen };

    /// Whatever a cut may leave of a file has its length.
    ghost lengths: { (s : Self) (part : Part) (file : List ℕ) → (meaning s).is_honest
        → (file_of (meaning s) part).left_at (meaning s).moment file
        → length file ≡ (file_of (meaning s) part).length };
}
