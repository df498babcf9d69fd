//! Segment files of a folder.
use crate::folders::{above, mode, names};
use crate::played::{Answer, Call, DONE, FAILED, answer_of, crosses_threads, play};
use byte_position::Geometry;
use segment_disk::{Disk, Failed};
use segment_files::{Access, FileDisk};
use std::fs;
use std::process::Abort;
use std::test::Fail;

static BEFORE: &[(Call, Answer)] = &[(Call::Read(1, 0), Ok(None)), (Call::Create(1), DONE)];

static BEHIND: &[(Call, Answer)] = &[
    (Call::Write(1, 127, 7), DONE),
    (Call::Sync(1), DONE),
    (Call::Read(2, 0), Ok(None)),
    (Call::Read(1, 0), Ok(Some([0; 4]))),
    (Call::Write(1, 0, 8), DONE),
    (Call::Read(1, 127), Ok(Some([7; 4]))),
    (Call::Read(1, 0), Ok(Some([8; 4]))),
    (Call::Write(2, 0, 7), FAILED),
    (Call::Sync(2), FAILED),
];

// Whether a page is read that segments of twice the size have and the file has not.
fn reads_beyond(disk: &mut impl Disk) -> Result<bool, Failed> {
    match Geometry::new(1 << 21) {
        Some(larger) => disk.read_page(larger, 1, 128, &mut [0; 8192]),
        None => Ok(true),
    }
}

#[test]
fn segments_are_files_of_a_folder(rt: HostRuntime) -> Result<(), Fail> {
    let alloc = rt.alloc();
    let above = above(rt, "segments")?;
    let folder = format!(in alloc; "{above}/log")?;
    let path = format!(in alloc; "{folder}/000000010000000000000001")?;
    let mut disk = FileDisk::open(rt, alloc, folder.as_str(), 7, Access::Write)?;
    crosses_threads(&disk);
    play(&rt, &mut disk, BEFORE);
    assert_eq!(rt;
        [mode(rt, folder.as_str())?, mode(rt, path.as_str())?],
        [0o700, 0o600]
    );
    assert_eq!(rt; names(rt, folder.as_str())?, (1, false));
    play(&rt, &mut disk, BEHIND);
    assert_eq!(rt; fs::metadata(&rt, path.as_str())?.len(), 1 << 20);
    assert_eq!(rt; reads_beyond(&mut disk), Ok(false));
    assert_eq!(rt; (disk.faults(), disk.moment()), (2, 6));
    fs::remove_dir_all(&rt, above.as_str())?;
    Ok(())
}

#[derive(Clone, Copy)]
enum Who {
    Writer,
    Syncer,
    Reader,
}

// Calls of three objects over one folder.
static SHARED: &[(Who, Call, Answer)] = &[
    (Who::Writer, Call::Create(1), DONE),
    (Who::Writer, Call::Write(1, 77, 177), DONE),
    (Who::Writer, Call::Write(1, 0, 100), DONE),
    (Who::Writer, Call::Write(1, 1, 101), DONE),
    (Who::Writer, Call::Write(1, 127, 227), DONE),
    (Who::Writer, Call::Write(1, 126, 226), DONE),
    // It sees its own pages before they are synced.
    (Who::Writer, Call::Read(1, 126), Ok(Some([226; 4]))),
    (Who::Writer, Call::Read(1, 127), Ok(Some([227; 4]))),
    (Who::Writer, Call::Write(1, 127, 1), DONE),
    (Who::Writer, Call::Read(1, 127), Ok(Some([1; 4]))),
    (Who::Writer, Call::Write(1, 127, 227), DONE),
    (Who::Writer, Call::Sync(1), DONE),
    // What one wrote and synced another one reads, also where pages were not written in order.
    (Who::Reader, Call::Read(1, 0), Ok(Some([100; 4]))),
    (Who::Reader, Call::Read(1, 1), Ok(Some([101; 4]))),
    (Who::Reader, Call::Read(1, 2), Ok(Some([0; 4]))),
    (Who::Reader, Call::Read(1, 77), Ok(Some([177; 4]))),
    (Who::Reader, Call::Read(1, 126), Ok(Some([226; 4]))),
    (Who::Reader, Call::Read(1, 127), Ok(Some([227; 4]))),
    (Who::Reader, Call::Read(1, 76), Ok(Some([0; 4]))),
    // What was read ahead is read anew where it is asked for again.
    (Who::Writer, Call::Write(1, 76, 9), DONE),
    (Who::Writer, Call::Sync(1), DONE),
    (Who::Reader, Call::Read(1, 76), Ok(Some([9; 4]))),
    // A segment that is there is not replaced, and who only reads changes nothing.
    (Who::Writer, Call::Create(1), FAILED),
    (Who::Reader, Call::Create(2), FAILED),
    (Who::Reader, Call::Write(1, 0, 5), FAILED),
    (Who::Reader, Call::Sync(1), FAILED),
    (Who::Writer, Call::Read(1, 0), Ok(Some([100; 4]))),
    // Who may sync besides reading changes nothing else, and has no need of the lock.
    (Who::Syncer, Call::Read(1, 0), Ok(Some([100; 4]))),
    (Who::Syncer, Call::Sync(1), DONE),
    (Who::Syncer, Call::Create(2), FAILED),
    (Who::Syncer, Call::Write(1, 0, 5), FAILED),
    (Who::Syncer, Call::Sync(2), FAILED),
    (Who::Writer, Call::Read(1, 0), Ok(Some([100; 4]))),
];

// Half-made files that a killed writer left are removed; what else has a temporary name is neither
// followed nor changed nor removed, and no other one is left.
#[test]
fn objects_share_a_folder(rt: HostRuntime) -> Result<(), Fail> {
    let alloc = rt.alloc();
    let folder = above(rt, "shared")?;
    fs::create_dir(&rt, folder.as_str())?;
    let taken = format!(in alloc; "{folder}/xlogtemp.7.0")?;
    fs::create_dir(&rt, taken.as_str())?;
    let left = format!(in alloc; "{folder}/xlogtemp.40.12")?;
    fs::write(&rt, left.as_str(), "half a segment")?;
    let mut writer = FileDisk::open(rt, alloc, folder.as_str(), 7, Access::Write)?;
    let mut syncer = FileDisk::open(rt, alloc, folder.as_str(), 8, Access::Sync)?;
    let mut reader = FileDisk::open(rt, alloc, folder.as_str(), 9, Access::Read)?;
    for (row, (who, call, answer)) in SHARED.iter().enumerate() {
        let told = match who {
            Who::Writer => answer_of(&mut writer, *call),
            Who::Syncer => answer_of(&mut syncer, *call),
            Who::Reader => answer_of(&mut reader, *call),
        };
        assert_eq!(rt; told, *answer, "row {row}");
    }
    assert_eq!(rt;
        (writer.faults(), reader.faults(), reader.moment()),
        (1, 3, 3)
    );
    assert_eq!(rt; (syncer.faults(), syncer.moment()), (3, 4));
    assert!(rt; fs::metadata(&rt, taken.as_str())?.is_dir());
    assert!(rt; !fs::exists(&rt, left.as_str())?);
    assert_eq!(rt; names(rt, folder.as_str())?, (2, true));
    fs::remove_dir_all(&rt, folder.as_str())?;
    Ok(())
}

static KEPT_OUT: &[(Call, Answer)] = &[
    (Call::Read(1, 0), FAILED),
    (Call::Create(2), FAILED),
    (Call::Sync(1), FAILED),
];

static LET_IN: &[(Call, Answer)] = &[
    (Call::Read(1, 0), Ok(Some([0; 4]))),
    (Call::Create(1), FAILED),
    (Call::Create(2), DONE),
];

// The first one that asks has the folder until it is dropped; the other one changes nothing.
#[test]
fn one_writer_has_a_folder(rt: HostRuntime) -> Result<(), Fail> {
    let alloc = rt.alloc();
    let folder = above(rt, "writers")?;
    let mut second = FileDisk::open(rt, alloc, folder.as_str(), 8, Access::Write)?;
    {
        let mut first = FileDisk::open(rt, alloc, folder.as_str(), 7, Access::Write)?;
        play(&rt, &mut first, BEFORE);
        play(&rt, &mut second, KEPT_OUT);
        assert_eq!(rt; names(rt, folder.as_str())?, (1, false));
    }
    play(&rt, &mut second, LET_IN);
    fs::remove_dir_all(&rt, folder.as_str())?;
    Ok(())
}

// Makes a segment, and writes more of its pages in a row than are held at a time.
fn write_row(rt: &impl Abort, disk: &mut impl Disk, segment: u8) {
    assert_eq!(rt; answer_of(disk, Call::Create(segment)), DONE);
    for page in 0..100 {
        let byte = page + segment % 2;
        assert_eq!(rt; answer_of(disk, Call::Write(segment, page, byte)), DONE);
    }
}

fn read_row(rt: &impl Abort, disk: &mut impl Disk, segment: u8) {
    for page in 0..100 {
        let byte = page + segment % 2;
        assert_eq!(rt;
            answer_of(disk, Call::Read(segment, page)),
            Ok(Some([byte; 4]))
        );
    }
}

#[test]
fn neighbouring_pages_all_arrive(rt: HostRuntime) -> Result<(), Fail> {
    let alloc = rt.alloc();
    let folder = above(rt, "neighbours")?;
    let mut disk = FileDisk::open(rt, alloc, folder.as_str(), 7, Access::Write)?;
    write_row(&rt, &mut disk, 1);
    write_row(&rt, &mut disk, 2);
    assert_eq!(rt; answer_of(&mut disk, Call::Sync(2)), DONE);
    assert_eq!(rt; disk.moment(), 203);
    let mut other = FileDisk::open(rt, alloc, folder.as_str(), 7, Access::Read)?;
    read_row(&rt, &mut other, 1);
    read_row(&rt, &mut other, 2);
    fs::remove_dir_all(&rt, folder.as_str())?;
    Ok(())
}
