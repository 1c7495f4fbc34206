//! CRC-32C, the sums that tell whether bytes are as they were written: the definition is a division
//! bit by bit, and the code divides eight bytes at a time by tables.
#![tactic(auto)]

mod laws;
mod sum;
mod tables;
#[cfg(test)]
mod tests;

pub use laws::{changes_of_four_bytes_show, sums_are_of_one_division};
pub use sum::{POLYNOMIAL, crc32c, crc32c_append};
