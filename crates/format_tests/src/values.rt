//! Texts of positions, and sums of bytes.
use wal_crc32c::{Crc, crc32c_by_division};
use wal_types::Lsn;

static TEXTS: &[(u64, &str)] = &[
    (0, "0/00000000"),
    (0x10_0028, "0/00100028"),
    (0x1_0000_0000, "1/00000000"),
    (u64::MAX, "FFFFFFFF/FFFFFFFF"),
];

#[test]
fn texts_have_an_upper_and_a_lower_part(rt: HostRuntime) {
    for (number, text) in TEXTS {
        assert_eq!(rt; Lsn(*number).text().as_bytes(), text.as_bytes());
    }
}

static SUMS: &[(&[u8], u32)] = &[
    (b"", 0x0000_0000),
    (b"123456789", 0xe306_9283),
    (&[0x00; 32], 0x8a91_36aa),
    (&[0xff; 32], 0x62a8_ab43),
    (&[0x5a; 200], 0x4a38_6ab2),
];

fn sum_of_pieces(first: &[u8], second: &[u8]) -> u32 {
    let mut crc = Crc::new();
    crc.update(first);
    crc.update(second);
    crc.value()
}

#[test]
fn sums_are_those_known(rt: HostRuntime) {
    for (row, (bytes, sum)) in SUMS.iter().enumerate() {
        let (first, second) = bytes.split_at(bytes.len() / 3);
        let sums = [sum_of_pieces(first, second), crc32c_by_division(bytes)];
        assert_eq!(rt; sums, [*sum; 2], "row {row}");
    }
}

// Bytes of which no two stretches are alike.
fn varied() -> [u8; 2500] {
    let mut bytes = [0; 2500];
    let mut state = 1u32;
    for byte in &mut bytes {
        state = state.wrapping_mul(0x0019_660d).wrapping_add(0x3c6e_f35f);
        *byte = (state >> 24) as u8;
    }
    bytes
}

#[test]
fn sums_of_longer_bytes_are_those_by_division(rt: HostRuntime) {
    let bytes = varied();
    for length in 750..2500usize {
        let (bytes, _) = bytes.split_at(length);
        assert_eq!(rt;
            sum_of_pieces(&[], bytes),
            crc32c_by_division(bytes),
            "{length}"
        );
    }
}
