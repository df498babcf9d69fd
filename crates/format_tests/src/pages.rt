//! Checks of a page.
use crate::calls::smallest;
use byte_position::Page;
use wal_page::{PageErr, PageInfo, check_page};
use wal_types::Lsn;

/// The header of a log's first page, where segments have 1 MiB and the system id is 1.
#[rattlefmt::skip]
pub(crate) const FIRST_HEADER: [u8; 40] = [
    0x13, 0xd1, 6, 0, 1, 0, 0, 0, 0, 0, 0x10, 0, 0, 0, 0, 0, 0, 0, 0, 0, 0, 0, 0, 0,
    1, 0, 0, 0, 0, 0, 0, 0, 0, 0, 0x10, 0, 0, 0x20, 0, 0,
];

const WHOLE: PageInfo = PageInfo {
    info: 6,
    timeline: 1,
    rem_len: 0,
};

// A page's number, bytes of the header that are others than those of the log's first page, and what
// is told behind a page of timeline 1: of two checks that fail the first.
static PAGES: &[(u64, &[(u8, u8)], Result<PageInfo, PageErr>)] = &[
    (128, &[], Ok(WHOLE)),
    (
        128,
        &[(0, 0), (2, 0x10)],
        Err(PageErr::Magic { found: 0xd100 }),
    ),
    (
        128,
        &[(2, 0x10), (34, 0x20)],
        Err(PageErr::Flags { found: 0x10 }),
    ),
    (128, &[(2, 0), (34, 0x20)], Err(PageErr::NoLong)),
    (129, &[(34, 0x20)], Err(PageErr::LongInside)),
    (
        128,
        &[(34, 0x20), (37, 0x10)],
        Err(PageErr::SegSize { found: 0x20_0000 }),
    ),
    (
        128,
        &[(37, 0x10), (24, 0)],
        Err(PageErr::PageSize { found: 0x1000 }),
    ),
    (128, &[(24, 0), (10, 0)], Err(PageErr::SysId)),
    (
        128,
        &[(10, 0), (4, 0)],
        Err(PageErr::Address { found: Lsn(0) }),
    ),
    (128, &[(4, 0)], Err(PageErr::Timeline { found: 0 })),
];

#[test]
fn first_fault_of_a_page_is_told(rt: HostRuntime) {
    for (number, changes, told) in PAGES {
        assert_eq!(rt;
            check_page(smallest(), *number, &changed(changes), 1),
            *told
        );
    }
}

fn changed(changes: &[(u8, u8)]) -> Page {
    let mut page = [0; 8192];
    page[..40].copy_from_slice(&FIRST_HEADER);
    for (at, byte) in changes {
        page[usize::from(*at)] = *byte;
    }
    page
}
