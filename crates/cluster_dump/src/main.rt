//! cluster_dump: lists the write-ahead log of a cluster's folder, and tells how it ends.
#![tactic(auto)]

mod bound;
mod folder;
mod folder_err;
mod segment_name;
mod timeline_files;
mod words;

use bound::Bound;
use byte_position::Geometry;
use clap::error::ErrorKind;
use cluster_listing::{Ending, Form, Listing, list, list_statistics, list_tail};
use folder::{Timeline, segment_size};
use folder_err::FolderErr;
use segment_files::StandardSink;
use segment_name::SegmentName;
use std::alloc::AllocError;
use std::process::ExitCode;
use std::{env, io};
use timeline_files::TimelineFiles;
use wal_types::{Lsn, Xid};
use waldump_filter::Filter;
use words::{ListingAsked, words_ask};

fn main(rt: HostRuntime) -> ExitCode {
    match run(rt) {
        Ok(status) => ExitCode::from(status),
        Err(error) => {
            let _ = eprintln!(rt; "cluster_dump: {error}");
            ExitCode::from(error.status())
        }
    }
}

// The words of the command line.
fn given_words(rt: HostRuntime) -> Result<Vec<String>, FolderErr> {
    let mut words = Vec::new(rt.alloc());
    for word in env::args(&rt)? {
        words.push(word)?;
    }
    Ok(words)
}

fn run(rt: HostRuntime) -> Result<u8, FolderErr> {
    let words = given_words(rt)?;
    match words_ask(rt.alloc(), words.as_slice()) {
        Ok(asked) => list_folder(rt, &asked),
        Err(error) if error.kind() == ErrorKind::OutOfMemory => Err(FolderErr::Memory),
        Err(error) => {
            error.print(&rt)?;
            Ok(if error.use_stderr() { 2 } else { 0 })
        }
    }
}

fn list_folder(rt: HostRuntime, asked: &ListingAsked<'_>) -> Result<u8, FolderErr> {
    let alloc = rt.alloc();
    let timeline = Timeline::find(rt, asked.folder, asked.timeline)?;
    let number = timeline.first.timeline;
    let mut disk = TimelineFiles::new(rt, alloc, asked.folder, number)?;
    let mut header = [0; 40];
    if let Err(e) = disk.read_front(timeline.first, &mut header) {
        return Err(FolderErr::of_header(&e));
    }
    let geometry = segment_size(&header).ok_or(FolderErr::NoHeader)?;
    let filter = filter_of(asked, &timeline, geometry).ok_or(FolderErr::NoSuchSegment)?;
    let form = form_of(asked);
    let out = StandardSink::new(alloc, rt.stdout())?;
    let listing = match asked.tail {
        _ if asked.stats => list_statistics(alloc, &mut disk, geometry, &filter, out),
        Some(most) => list_tail(
            alloc,
            &mut disk,
            geometry,
            &filter,
            form,
            most as usize,
            out,
        ),
        None => list(alloc, &mut disk, geometry, &filter, form, out),
    };
    let Listing { walked, mut out } = listing;
    let mut ending = Ending::of(walked);
    if let Ending::Clean { at } = ending {
        let is_asked = filter.end.is_some_and(|end| end.0 <= at.0);
        if !is_asked {
            ending = end_at(&mut disk, &timeline, geometry, at);
        }
    }
    // What is kept back is written now.
    if out.flush().is_err() {
        ending = Ending::SinkFault;
    }
    let mut err = StandardSink::new(alloc, rt.stderr())?;
    let _ = ending.tell(&mut err);
    let _ = err.flush();
    Ok(ending.status())
}

fn form_of(asked: &ListingAsked<'_>) -> Form {
    let whole = asked.data;
    if asked.quiet {
        Form::Quiet
    } else if asked.json {
        Form::Json { whole }
    } else {
        Form::Line { whole }
    }
}

// Which records are listed: from the start asked for, or from the first segment's first byte on.
fn filter_of(asked: &ListingAsked<'_>, timeline: &Timeline, geometry: Geometry) -> Option<Filter> {
    let start = asked.start.unwrap_or(Bound::Segment(timeline.first));
    let mut filter = Filter::everything_from(start.first(geometry)?);
    if let Some(end) = asked.end {
        filter.end = Some(end.behind(geometry)?);
    }
    filter.rmid = asked.rmid;
    filter.xid = asked.xid.map(Xid);
    filter.fullpage = asked.fullpage;
    filter.limit = asked.limit;
    Some(filter)
}

// How a listing ended whose log comes to an end here: whether the segment of this address is not
// there, though a later one is.
fn end_at(
    disk: &mut TimelineFiles<HostRuntime>,
    timeline: &Timeline,
    geometry: Geometry,
    at: Lsn,
) -> Ending {
    let number = timeline.first.timeline;
    let name = SegmentName::of_segment(number, geometry, at.0 / geometry.segment_size());
    if name >= timeline.last {
        return Ending::Clean { at };
    }
    match disk.has_segment(name) {
        Ok(true) => Ending::Clean { at },
        Ok(false) => Ending::NoSegment { at },
        Err(e) if e.kind() == io::ErrorKind::OutOfMemory => Ending::OutOfMemory,
        Err(_) => Ending::DiskFault,
    }
}
