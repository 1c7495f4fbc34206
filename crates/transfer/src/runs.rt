//! What of a file isn't zeros, by blocks.

use crate::error::TransferError;
use crate::input::Input;
use mount::Fs;
use station::{BLOCK_BYTES, Station};
use std::alloc::Global;
use std::io::Read;

/// Blocks of a part that stand in a row, none of them zeros alone.
#[derive(Clone, Copy, Debug)]
pub struct Run<'p> {
    /// The byte of the part at which they begin.
    pub start: usize,
    pub bytes: &'p [u8],
}

impl Run<'_> {
    /// The byte of the part behind them.
    pub fn end(&self) -> usize {
        self.start.saturating_add(self.bytes.len())
    }
}

/// The first run of a part that doesn't begin before this byte, at which a block begins. None where
/// zeros alone are left.
pub fn next_run(part: &[u8], from: usize) -> Option<Run<'_>> {
    let zeros = part
        .get(from..)?
        .chunks(BLOCK_BYTES)
        .take_while(|block| is_zeros(block))
        .count();
    let start = from.saturating_add(zeros.saturating_mul(BLOCK_BYTES));
    let rest = part.get(start..)?;
    let blocks = rest
        .chunks(BLOCK_BYTES)
        .take_while(|block| !is_zeros(block))
        .count();
    let bytes = rest
        .get(..blocks.saturating_mul(BLOCK_BYTES))
        .unwrap_or(rest);
    (blocks > 0).then_some(Run { start, bytes })
}

/// How many blocks an input of known size has that aren't zeros alone. It begins anew then.
pub fn count_blocks<'a, S: Station, I: Read>(
    alloc: Global,
    fs: &mut Fs<S>,
    input: &mut Input<'a, '_, I>,
) -> Result<u64, TransferError<'a>> {
    let mut count = 0_u64;
    for _ in 0..u64::MAX {
        let part = input.read_part(alloc, fs)?;
        if part.is_empty() {
            break;
        }
        let blocks = part
            .chunks(BLOCK_BYTES)
            .filter(|block| !is_zeros(block))
            .count();
        count = count.saturating_add(blocks as u64);
    }
    input.rewind()?;
    Ok(count)
}

fn is_zeros(block: &[u8]) -> bool {
    block.iter().all(|byte| *byte == 0)
}
