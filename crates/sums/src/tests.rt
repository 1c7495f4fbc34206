//! Sums known from elsewhere: the check value of CRC-32C, the examples of RFC 3720, Appendix B.4, and
//! those of some letters.

use crate::{crc32c, crc32c_append};

/// The command that the RFC has for an example.
const READ_COMMAND: [u8; 48] = [
    0x01, 0xc0, 0x00, 0x00, 0x00, 0x00, 0x00, 0x00, 0x00, 0x00, 0x00, 0x00, 0x00, 0x00, 0x00, 0x00,
    0x14, 0x00, 0x00, 0x00, 0x00, 0x00, 0x04, 0x00, 0x00, 0x00, 0x00, 0x14, 0x00, 0x00, 0x00, 0x18,
    0x28, 0x00, 0x00, 0x00, 0x00, 0x00, 0x00, 0x00, 0x02, 0x00, 0x00, 0x00, 0x00, 0x00, 0x00, 0x00,
];

/// 0 to 31.
fn numbers() -> [u8; 32] {
    let mut bytes = [0; 32];
    for i in 0..32u8 {
        bytes[i as usize] = i;
    }
    bytes
}

#[test]
fn sums_are_those_of_the_rfc(rt: HostRuntime) {
    let mut rising = numbers();
    assert_eq!(rt; crc32c(&[0x00; 32]), 0x8a91_36aa);
    assert_eq!(rt; crc32c(&[0xff; 32]), 0x62a8_ab43);
    assert_eq!(rt; crc32c(&rising), 0x46dd_794e);
    rising.reverse();
    assert_eq!(rt; crc32c(&rising), 0x113f_db5c);
    assert_eq!(rt; crc32c(&READ_COMMAND), 0xd996_3a56);
}

#[test]
fn lengths_need_not_be_multiples_of_eight(rt: HostRuntime) {
    assert_eq!(rt; crc32c(b""), 0);
    assert_eq!(rt; crc32c(b"a"), 0xc1d0_4330);
    assert_eq!(rt; crc32c(b"abcdefg"), 0xe627_f441);
    assert_eq!(rt; crc32c(b"abcdefgh"), 0x0a94_21b7);
    assert_eq!(rt; crc32c(b"abcdefghi"), 0x2ddc_99fc);
    assert_eq!(rt; crc32c(b"123456789"), 0xe306_9283);
}

#[test]
fn parts_have_the_sum_of_the_whole(rt: HostRuntime) {
    for end in 0..=48usize {
        let (front, back) = READ_COMMAND.split_at(end);
        assert_eq!(rt;
            crc32c_append(crc32c(front), back),
            0xd996_3a56,
            "behind {end}"
        );
    }
    let mut sum = 0;
    for part in [b"12", b"34", b"56", b"78"] {
        sum = crc32c_append(sum, part);
    }
    assert_eq!(rt; crc32c_append(sum, b"9"), 0xe306_9283);
}
