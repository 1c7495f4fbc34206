//! The calls on descriptors (files), over memory that stands for a volume and the table of open
//! files beside it. They are `open`, `read`, `pread`, `write`, `pwrite`, `ftruncate`, `fchmod`,
//! `fchown`, `futimens`, `fstat`, `lseek`, `fsync` and `close`, of which `lseek` and `fsync` take no
//! memory and call no device, nor does a `close` of a file with a name. What changes a file is
//! prepared, with all memory taken and all blocks read; its record is for the caller to log; and
//! then it is put in force, which can't fail.
#![tactic(auto)]

mod closing;
mod fchmod;
mod fchown;
mod ftruncate;
mod futimens;
mod laws;
mod open_stat;
mod opening;
mod reading;
mod seeking;
mod writing;
mod written;

pub use closing::{close, prepare_close};
pub use fchmod::prepare_fchmod;
pub use fchown::prepare_fchown;
pub use ftruncate::prepare_ftruncate;
pub use futimens::prepare_futimens;
pub use laws::named_files_have_paths;
pub use open_stat::{fattr, fstat};
pub use opening::{Opening, prepare_open};
pub use reading::{pread, read};
pub use seeking::{fsync, lseek};
pub use writing::{prepare_pwrite, prepare_write};
pub use written::{Writing, Written};
