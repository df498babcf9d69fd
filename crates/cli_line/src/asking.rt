ghost use Rattle.std.specs.Prelude.{◌≡◌, ◌↔◌, IfOk, IsErr, map, string_bytes, option_map};
ghost use Rattle.clap.specs.Words.{first_of, found_of, rows_of};
ghost use Rattle.cli_line.specs.Given.{given_of, text_of};
ghost use Rattle.cli_line.specs.Asking.{AsksInRange, asks, given_in, is_set, request_by, request_of};

use crate::commands::Command;
use crate::declared::declared;
use crate::given::GivenWords;
use clap::ArgMatches;
use clap::error::ErrorKind;
use std::alloc::{AllocError, Global};

/// What a command line asks for.
#[derive(Clone, Copy, Debug)]
pub enum Request {
    /// A command, with what its options say.
    Command(Command),
    /// The text that explains the commands.
    Help,
    /// The line that tells the program's version.
    Version,
    /// The words are no command line.
    Nothing,
}

/// What the words of a command line ask for, the program's name in front of them.
pub fn asked(alloc: Global, words: &[String]) -> Result<Request, AllocError>
    ensures asks { IfOk result (λ request. request
        ≡ asks (map (λ w. string_bytes w) words.now)) }
    ensures in_range { IfOk result AsksInRange }
{
    let command = declared(alloc)?;
    match command.try_get_matches_from(words) {
        Ok(matches) => Ok(request_of(&given_words(&matches))),
        Err(error) => request_by(error.kind()),
    }
}

fn request_of(given: &GivenWords) -> Request
    ensures request { result ≡ request_of (given_of given.now) }
    ensures in_range { AsksInRange result }
{
    if given.command == Some("help") {
        return Request::Help;
    }
    match given.command() {
        Some(command) => Request::Command(command),
        None => Request::Nothing,
    }
}

fn request_by(kind: ErrorKind) -> Result<Request, AllocError>
    ensures memory { IsErr result ↔ (kind ≡ ErrorKind.OutOfMemory) }
    ensures request { IfOk result (λ request. request ≡ request_by kind) }
    ensures in_range { IfOk result AsksInRange }
{
    match kind {
        ErrorKind::OutOfMemory => Err(AllocError),
        ErrorKind::DisplayHelp => Ok(Request::Help),
        ErrorKind::DisplayVersion => Ok(Request::Version),
        _ => Ok(Request::Nothing),
    }
}

fn given_words<'a>(matches: &ArgMatches<'a>) -> GivenWords<'a>
    ensures { given_of result ≡ given_in (rows_of (found_of matches.now)) }
{
    GivenWords {
        command: word_of(matches, "command"),
        topic: word_of(matches, "topic"),
        seg: word_of(matches, "seg"),
        ring: word_of(matches, "ring"),
        cap: word_of(matches, "cap"),
        list: is_set(matches, "list"),
        writer: word_of(matches, "writer"),
        append: is_set(matches, "append"),
        crash: word_of(matches, "crash"),
        from: word_of(matches, "from"),
        rmgr: word_of(matches, "rmgr"),
        xid: word_of(matches, "xid"),
        relation: word_of(matches, "relation"),
        block: word_of(matches, "block"),
        fork: word_of(matches, "fork"),
        fullpage: is_set(matches, "fullpage"),
        start: word_of(matches, "start"),
        end: word_of(matches, "end"),
        limit: word_of(matches, "limit"),
        quiet: is_set(matches, "quiet"),
        stats: is_set(matches, "stats"),
        times: is_set(matches, "times"),
    }
}

fn word_of<'a>(matches: &ArgMatches<'a>, name: &str) -> Option<&'a str>
    ensures { text_of result ≡ first_of name.now (rows_of (found_of matches.now)) }
{
    matches.get_str(name)
}

fn is_set(matches: &ArgMatches, name: &str) -> bool
    ensures { result ≡ is_set name.now (rows_of (found_of matches.now)) }
{
    match word_of(matches, name) {
        Some(value) => value == "true",
        None => false,
    }
}
