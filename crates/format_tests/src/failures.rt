//! Files and folders of which one call fails.
use crate::folders::above;
use crate::played::{Answer, Call, DONE, FAILED, play};
use segment_disk::Disk;
use segment_files::{Access, FileDisk};
use std::fs;
use std::os::unix::fs::symlink;
use std::test::Fail;

// What stands in the place of segment 1.
static FILES: &[(&str, &[(Call, Answer)])] = &[
    // It takes no byte. A page that was held and answered Ok fails with a later page, and is never
    // promised by a sync.
    (
        "/dev/full",
        &[
            (Call::Write(1, 0, 5), DONE),
            (Call::Write(1, 5, 5), FAILED),
            (Call::Sync(1), FAILED),
            (Call::Read(1, 0), FAILED),
        ],
    ),
    // It cannot be synced, and from then on nothing answers Ok.
    (
        "/dev/null",
        &[
            (Call::Write(1, 0, 5), DONE),
            (Call::Sync(1), FAILED),
            (Call::Write(1, 1, 5), FAILED),
            (Call::Create(2), FAILED),
            (Call::Read(1, 0), FAILED),
            (Call::Sync(1), FAILED),
        ],
    ),
    // A link to itself cannot be opened, which is another matter than that nothing is there.
    (
        "000000010000000000000001",
        &[
            (Call::Read(2, 0), Ok(None)),
            (Call::Read(1, 0), FAILED),
            (Call::Create(1), FAILED),
            (Call::Sync(1), FAILED),
        ],
    ),
];

#[test]
fn nothing_answers_ok_after_a_failure(rt: HostRuntime) -> Result<(), Fail> {
    let alloc = rt.alloc();
    let folder = above(rt, "failures")?;
    fs::create_dir(&rt, folder.as_str())?;
    let path = format!(in alloc; "{folder}/000000010000000000000001")?;
    for (file, answers) in FILES {
        symlink(&rt, *file, path.as_str())?;
        let mut disk = FileDisk::open(rt, alloc, folder.as_str(), 7, Access::Write)?;
        play(&rt, &mut disk, answers);
        fs::remove_file(&rt, path.as_str())?;
    }
    fs::remove_dir_all(&rt, folder.as_str())?;
    Ok(())
}

static NO_SEGMENT: &[(Call, Answer)] = &[(Call::Create(1), FAILED), (Call::Read(1, 0), FAILED)];

// One cannot be synced, so that nothing answers Ok from then on; the other is below a file.
#[test]
fn folder_that_fails_has_no_segment(rt: HostRuntime) -> Result<(), Fail> {
    for folder in ["/proc", "/dev/null/log"] {
        let mut disk = FileDisk::open(rt, rt.alloc(), folder, 7, Access::Write)?;
        play(&rt, &mut disk, NO_SEGMENT);
        assert_eq!(rt; (disk.faults(), disk.moment()), (2, 1));
    }
    Ok(())
}
