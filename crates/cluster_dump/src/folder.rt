//! What a folder of segment files has: a timeline's first and last segment, and their size.

use crate::folder_err::FolderErr;
use crate::segment_name::SegmentName;
use byte_position::Geometry;
use std::fs;
use std::io::ErrorKind;

/// The segments of a timeline.
#[derive(Clone, Copy, Debug)]
pub struct Timeline {
    pub first: SegmentName,
    pub last: SegmentName,
}

impl Timeline {
    /// The timeline of this number in a folder, or if none is given the highest one.
    pub fn find(rt: HostRuntime, folder: &str, asked: Option<u32>) -> Result<Timeline, FolderErr> {
        let mut found: Option<Timeline> = None;
        for entry in fs::read_dir(&rt, folder)? {
            let entry = match entry {
                Ok(entry) => entry,
                // A name that is no text is no segment's.
                Err(e) if e.kind() == ErrorKind::InvalidFilename => continue,
                Err(e) => return Err(e.into()),
            };
            if let Some(name) = SegmentName::of_word(entry.file_name().as_bytes()) {
                if asked.is_none_or(|timeline| timeline == name.timeline) {
                    found = Some(with_segment(found, name));
                }
            }
        }
        found.ok_or(FolderErr::NoSegment)
    }
}

fn with_segment(found: Option<Timeline>, name: SegmentName) -> Timeline {
    match found {
        Some(timeline) if timeline.first.timeline > name.timeline => timeline,
        Some(timeline) if timeline.first.timeline == name.timeline => Timeline {
            first: timeline.first.min(name),
            last: timeline.last.max(name),
        },
        _ => Timeline {
            first: name,
            last: name,
        },
    }
}

/// The size of segments, as the header of one of them says it (PostgreSQL's
/// XLogLongPageHeaderData).
pub fn segment_size(header: &[u8; 40]) -> Option<Geometry> {
    if header[2] & 2 == 0 {
        return None;
    }
    let size = u32::from_le_bytes([header[32], header[33], header[34], header[35]]);
    Geometry::new(u64::from(size))
}
