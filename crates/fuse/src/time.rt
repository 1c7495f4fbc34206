//! Times.

/// A moment: seconds since 1970 began, and nanoseconds behind them. The protocol's field of seconds
/// is unsigned; the kernel takes it as a signed number of 64 bits. A request's nanoseconds are read
/// as they stand.
#[derive(Clone, Copy, Debug)]
pub struct Time {
    pub seconds: u64,
    /// Below 1,000,000,000, as the kernel sends and takes them.
    pub nanoseconds: u32,
}

/// How long the kernel may keep what it was told.
#[derive(Clone, Copy, Debug)]
pub struct Timeout {
    pub seconds: u64,
    /// Below 1,000,000,000.
    pub nanoseconds: u32,
}
