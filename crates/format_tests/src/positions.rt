//! Sizes and names of segments, and positions round headers.
use crate::calls::smallest;
use byte_position::{Geometry, address_by_counting};
use wal_types::Lsn;

#[test]
fn segment_sizes_are_powers_of_two_in_range(rt: HostRuntime) {
    for (size, is_right) in [
        (1_048_576, true),
        (16_777_216, true),
        (1_073_741_824, true),
        (0, false),
        (524_288, false),
        (1_048_577, false),
        (2_147_483_648, false),
    ] {
        assert_eq!(rt; Geometry::new(size).is_some(), is_right, "{size}");
    }
}

#[test]
fn file_names_part_the_number(rt: HostRuntime) {
    let geometry = smallest();
    assert_eq!(rt; geometry.pages(), 128);
    for (segment, name) in [
        (1, *b"000000010000000000000001"),
        (2, *b"000000010000000000000002"),
        (4096, *b"000000010000000100000000"),
    ] {
        assert_eq!(rt; geometry.file_name(segment), name, "segment {segment}");
    }
}

// The log's first byte position: behind the 128 pages of segment 0, each with 8168 bytes that are
// no header's, less the 16 by which the first header is longer.
const FIRST: u32 = 128 * 8168 - 16;

// A byte position, the address behind the byte before it, and its own.
static ADDRESSES: &[(u32, u64, u64)] = &[
    (0, 0, 40),
    (8151, 8191, 8191),
    (8152, 8192, 8192 + 24),
    (FIRST - 1, 1_048_575, 1_048_575),
    (FIRST, 1_048_576, 1_048_576 + 40),
    (FIRST + 1, 0x10_0029, 0x10_0029),
];

#[test]
fn what_fills_a_page_ends_at_its_end(rt: HostRuntime) {
    let geometry = smallest();
    for (position, end, start) in ADDRESSES {
        let far = u64::from(*position);
        let addresses = [
            geometry.to_end_lsn(far).0,
            geometry.to_lsn(far).0,
            address_by_counting(geometry, *position % (1 << 20)),
        ];
        assert_eq!(rt; addresses, [*end, *start, *start], "{position}");
    }
}

static POSITIONS: &[(u64, Option<u64>)] = &[
    (0x10_0000, Some(FIRST as u64)),
    (0x10_0001, None),
    (0x10_0027, None),
    (0x10_0028, Some(FIRST as u64)),
    (0x10_0029, Some(FIRST as u64 + 1)),
    (0x10_2000, Some(FIRST as u64 + 8152)),
    (0x10_2017, None),
    (0x10_2018, Some(FIRST as u64 + 8152)),
];

#[test]
fn addresses_inside_headers_have_no_position(rt: HostRuntime) {
    let geometry = smallest();
    for (address, position) in POSITIONS {
        assert_eq!(rt; geometry.of_lsn(Lsn(*address)), *position, "{address}");
    }
}
