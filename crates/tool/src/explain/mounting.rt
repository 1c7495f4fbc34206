//! Why an image isn't mounted: what a look at its files shows.

use crate::obeying::find_faults;
use host_files::Image;
use layout::{BLOCK_BYTES, Geometry, ROOT_BYTES, Root};
use mount::MountError;
use std::io::{Read, Seek, SeekFrom, Write};
use std::{fs, io};

/// The bytes at which the slots of roots begin: those of the first two blocks.
const SLOTS: [u64; 2] = [0, BLOCK_BYTES as u64];

/// Tells why an image isn't mounted, by its files.
pub(crate) fn explain_mount<E: Write>(
    rt: &HostRuntime,
    image: Image<'_>,
    error: MountError,
    err: &mut E,
) {
    let Image { disk, nvram, bad } = image;
    let _ = match error {
        MountError::NoMemory => writeln!(err, "wafl: {disk}: no memory for the image"),
        MountError::Device => writeln!(err, "wafl: {disk}, {nvram}: a read or a sync failed"),
        MountError::NoRoot if geometry_in(rt, nvram).is_some() => {
            writeln!(
                err,
                "wafl: {disk}: no image of wafl, but {nvram} holds a root (are DISK and NVRAM swapped?)"
            )
        }
        MountError::NoRoot if is_there(rt, bad) => writeln!(
            err,
            "wafl: {disk}: it holds no root that can be read: {bad} names sectors that can't be"
        ),
        MountError::NoRoot => writeln!(err, "wafl: {disk}: no image of wafl: it holds no root"),
        MountError::Damaged => explain_damage(rt, image, err),
    };
    if error == MountError::Damaged {
        find_faults(rt, image, err);
        let _ = writeln!(
            err,
            "wafl: what can be read still can by get, df and do with --salvage"
        );
    }
}

/// Tells why files that hold a root aren't mounted.
fn explain_damage<E: Write>(rt: &HostRuntime, image: Image<'_>, err: &mut E) -> io::Result<()> {
    let Image { disk, nvram, bad } = image;
    let Some(geometry) = geometry_in(rt, disk) else {
        return writeln!(err, "wafl: {disk}: its root is outside the format");
    };
    let disk_bytes = u64::from(geometry.blocks()).saturating_mul(4096);
    if let Some(bytes) = other_size(rt, disk, disk_bytes) {
        return writeln!(
            err,
            "wafl: {disk}: {bytes} bytes, and by its root {disk_bytes} (was it cut off, or is it another's?)"
        );
    }
    let nvram_bytes = u64::from(geometry.nvram_bytes());
    match other_size(rt, nvram, nvram_bytes) {
        Some(bytes) => writeln!(
            err,
            "wafl: {nvram}: {bytes} bytes, and by the root of {disk} {nvram_bytes} (is it another image's NVRAM?)"
        ),
        None if is_there(rt, bad) => writeln!(
            err,
            "wafl: {disk}, {nvram}: what they hold is outside the format, or in a sector that {bad} names"
        ),
        None => writeln!(
            err,
            "wafl: {disk}, {nvram}: what they hold is outside the format"
        ),
    }
}

fn is_there(rt: &HostRuntime, path: &str) -> bool {
    fs::metadata(rt, path).is_ok()
}

/// The sizes that a root in one of a file's slots tells.
pub(crate) fn geometry_in(rt: &HostRuntime, path: &str) -> Option<Geometry> {
    let mut file = fs::open(rt, path).ok()?;
    for slot in SLOTS {
        if let Some(root) = root_at(&mut file, slot) {
            return Some(root.geometry);
        }
    }
    None
}

/// The root that begins at this byte of a file.
fn root_at<F: Read + Seek>(file: &mut F, slot: u64) -> Option<Root> {
    let mut bytes = [0; ROOT_BYTES];
    file.seek(SeekFrom::Start(slot)).ok()?;
    file.read_exact(&mut bytes).ok()?;
    Root::read(&bytes)
}

/// The size of a file that has another one than this.
fn other_size(rt: &HostRuntime, path: &str, expected: u64) -> Option<u64> {
    match fs::metadata(rt, path) {
        Ok(metadata) if metadata.len() != expected => Some(metadata.len()),
        _ => None,
    }
}
