//! The numbers that Linux has for refusals (`include/uapi/asm-generic/errno.h` of the kernel).

ghost use Rattle.std.specs.Prelude.{◌≡◌, ◌≤◌};
ghost use Rattle.fuse.specs.declared.reply.TheConstants.{MOST_ERRNO};
ghost use Rattle.served.specs.Replying.{linux_number};

use model::Errno;

/// Function not implemented.
pub(crate) const ENOSYS: u32 = 38;
/// No such device or address.
pub(crate) const ENXIO: u32 = 6;
/// Protocol error.
pub(crate) const EPROTO: u32 = 71;

/// The number of a refusal.
pub(crate) fn linux_number(errno: Errno) -> u32
    ensures value { result ≡ linux_number errno }
    ensures least { 1 ≤ result }
    ensures most { result ≤ MOST_ERRNO }
{
    match errno {
        Errno::EPERM => 1,
        Errno::ENOENT | Errno::NOSNAP => 2,
        Errno::EIO | Errno::FAILED => 5,
        Errno::EBADF => 9,
        Errno::ENOMEM => 12,
        Errno::EBUSY => 16,
        Errno::EEXIST | Errno::SNAPEXISTS => 17,
        Errno::ENOTDIR => 20,
        Errno::EISDIR => 21,
        Errno::EINVAL | Errno::BADNAME => 22,
        Errno::EMFILE => 24,
        Errno::EFBIG => 27,
        Errno::ENOSPC | Errno::DIRFULL | Errno::NONUMBER | Errno::SNAPFULL => 28,
        Errno::EROFS => 30,
        Errno::EMLINK => 31,
        Errno::ENAMETOOLONG => 36,
        Errno::ENOTEMPTY => 39,
        Errno::ELOOP => 40,
        Errno::EOVERFLOW => 75,
        Errno::ENOTSUP => 95,
        Errno::ESTALE => 116,
        Errno::DAMAGED => 117,
    }
}
