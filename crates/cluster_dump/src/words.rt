//! What the command line asks for.

use crate::bound::Bound;
use clap::error::ErrorKind;
use clap::{Arg, ArgAction, ArgMatches, Command, Error, value_parser};
use std::alloc::{AllocError, Global};
use waldump_filter::own_manager;

// What is expected of a word for a place.
const PLACES: &str = "an address as 0/1000028, or a segment as 000000010000000000000001";

/// What is listed, and how.
#[derive(Drop)]
pub struct ListingAsked<'a> {
    /// The folder of segment files.
    pub folder: &'a str,
    /// The timeline; the highest one in the folder if none is given.
    pub timeline: Option<u32>,
    pub start: Option<Bound>,
    pub end: Option<Bound>,
    /// The resource manager, if not all are listed.
    pub rmid: Option<u8>,
    pub xid: Option<u32>,
    /// Whether only records with a page's image are listed.
    pub fullpage: bool,
    /// How many records are listed at most.
    pub limit: Option<u64>,
    /// How many of the last records are printed, if not all are.
    pub tail: Option<u32>,
    /// Whether sums are printed, and no record.
    pub stats: bool,
    pub quiet: bool,
    /// Whether records are printed as JSON objects.
    pub json: bool,
    /// Whether all of the main data is printed.
    pub data: bool,
}

fn declared<'a>(alloc: Global) -> Result<Command<'a>, AllocError> {
    let command = Command::new(alloc, "cluster_dump")
        .version("1")
        .about("Lists the records of a cluster's write-ahead log.");
    let command = with_places(alloc, command)?;
    let command = with_filters(alloc, command)?;
    with_forms(alloc, command)
}

// The options that say where the records are.
fn with_places<'a>(alloc: Global, command: Command<'a>) -> Result<Command<'a>, AllocError> {
    let path = valued(alloc, "path", 'p', "FOLDER").help("The folder of segment files");
    let command = command.arg(path.default_value("."))?;
    let start = valued(alloc, "start", 's', "LSN").help("Where to begin: an address, or a segment");
    let command = command.arg(start)?;
    let end = valued(alloc, "end", 'e', "LSN").help("Where to end: an address, or a segment");
    let command = command.arg(end)?;
    let timeline = valued(alloc, "timeline", 't', "TIMELINE").value_parser(value_parser!(u32));
    command.arg(timeline.help("The timeline (the highest there is)"))
}

// The options that say which records are listed.
fn with_filters<'a>(alloc: Global, command: Command<'a>) -> Result<Command<'a>, AllocError> {
    let limit = valued(alloc, "limit", 'n', "N").value_parser(value_parser!(u64));
    let command = command.arg(limit.help("How many records to list"))?;
    let rmgr = valued(alloc, "rmgr", 'r', "RMGR").help("Only records of this resource manager");
    let command = command.arg(rmgr)?;
    let xid = valued(alloc, "xid", 'x', "XID").value_parser(value_parser!(u32));
    let command = command.arg(xid.help("Only records of this transaction"))?;
    command.arg(switch(alloc, "fullpage", 'w').help("Only records with a page's image"))
}

// The options that say what is printed.
fn with_forms<'a>(alloc: Global, command: Command<'a>) -> Result<Command<'a>, AllocError> {
    let tail = valued(alloc, "tail", 'l', "N").value_parser(value_parser!(u32));
    let command = command.arg(tail.help("How many of the last records to print"))?;
    let stats = switch(alloc, "stats", 'z').help("Print sums by manager and kind, and no record");
    let command = command.arg(stats)?;
    let quiet = switch(alloc, "quiet", 'q').help("List no record, and tell how the log ends");
    let command = command.arg(quiet)?;
    let json = switch(alloc, "json", 'j').help("Print each record as a JSON object on a line");
    let command = command.arg(json)?;
    command.arg(switch(alloc, "data", 'd').help("Print all main data, and not its first 64 bytes"))
}

// An option without a value.
fn switch<'a>(alloc: Global, name: &'a str, letter: char) -> Arg<'a> {
    Arg::new(alloc, name)
        .short(letter)
        .long(name)
        .action(ArgAction::SetTrue)
}

// An option that takes a value.
fn valued<'a>(alloc: Global, name: &'a str, letter: char, value: &'a str) -> Arg<'a> {
    Arg::new(alloc, name)
        .short(letter)
        .long(name)
        .value_name(value)
        .action(ArgAction::Set)
}

/// What words ask for, the program's name the first of them.
pub fn words_ask<'a>(alloc: Global, words: &'a [String]) -> Result<ListingAsked<'a>, Error> {
    let matches = declared(alloc)?.try_get_matches_from(words)?;
    Ok(ListingAsked {
        folder: matches.get_str("path").unwrap_or("."),
        timeline: matches.get_one::<u32>("timeline"),
        start: bound(alloc, &matches, "start")?,
        end: bound(alloc, &matches, "end")?,
        rmid: manager(alloc, &matches)?,
        xid: matches.get_one::<u32>("xid"),
        fullpage: matches.get_flag("fullpage"),
        limit: matches.get_one::<u64>("limit"),
        tail: matches.get_one::<u32>("tail"),
        stats: matches.get_flag("stats"),
        quiet: matches.get_flag("quiet"),
        json: matches.get_flag("json"),
        data: matches.get_flag("data"),
    })
}

fn bound(alloc: Global, matches: &ArgMatches<'_>, option: &str) -> Result<Option<Bound>, Error> {
    let Some(word) = matches.get_str(option) else {
        return Ok(None);
    };
    match Bound::of_word(word) {
        Some(bound) => Ok(Some(bound)),
        None => Err(bad_word(alloc, option, word, PLACES)?),
    }
}

fn manager(alloc: Global, matches: &ArgMatches<'_>) -> Result<Option<u8>, Error> {
    let Some(word) = matches.get_str("rmgr") else {
        return Ok(None);
    };
    match own_manager(word) {
        Some(rmid) => Ok(Some(rmid)),
        None => Err(bad_word(alloc, "rmgr", word, "a resource manager as Heap2")?),
    }
}

fn bad_word(alloc: Global, option: &str, word: &str, expected: &str) -> Result<Error, AllocError> {
    let text = format!(in alloc; "invalid value '{word}' for '--{option}': expected {expected}")?;
    declared(alloc)?.error(ErrorKind::ValueValidation, text.as_str())
}
