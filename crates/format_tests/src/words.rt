//! What words mean: those of a command line, of its options, and of numbers.

use cli_line::{
    Command, CrashPick, GivenWords, RunOptions, block_number, cap_segments, crash, fork, limit,
    line_count, lsn, manager, relation, ring_pages, segment_size, writer_lines, xid,
};
use cli_text::{hexadecimal_digit, number, time};
use wal_types::{Lsn, Rel, Xid};

// The words of a command line with a command's name, and maybe a word behind it.
fn named<'a>(command: &'a str, topic: Option<&'a str>) -> GivenWords<'a> {
    GivenWords {
        command: Some(command),
        topic,
        seg: None,
        ring: None,
        cap: None,
        list: false,
        writer: None,
        append: false,
        crash: None,
        from: None,
        rmgr: None,
        xid: None,
        relation: None,
        block: None,
        fork: None,
        fullpage: false,
        start: None,
        end: None,
        limit: None,
        quiet: false,
        stats: false,
        times: false,
    }
}

// How many lines each backend has of those that are made, the segments' size, the ring's pages and
// the log's segments, where a run is asked for.
fn shape(given: &GivenWords) -> Option<(u32, u64, u32, u32)> {
    let command = given.command()?;
    match &command {
        Command::Run(options) => Some(run_shape(0, &options.run)),
        Command::Gen(options) => Some(run_shape(options.lines, &options.run)),
        _ => None,
    }
}

fn run_shape(lines: u32, options: &RunOptions) -> (u32, u64, u32, u32) {
    (
        lines,
        options.geometry.segment_size(),
        options.ring_pages,
        options.cap_segments,
    )
}

#[test]
fn a_log_has_a_shape_where_none_is_given(rt: HostRuntime) {
    let run = named("run", None);
    assert_eq!(rt; shape(&run), Some((0, 16_777_216, 64, 64)));
    let most = named("gen", Some("100000"));
    assert_eq!(rt; shape(&most), Some((100_000, 16_777_216, 64, 64)));
}

#[test]
fn the_word_of_each_option_has_its_meaning(rt: HostRuntime) {
    assert_eq!(rt; [manager("Custom255"), fork("init")], [Some(255), Some(3)]);
    assert_eq!(rt; lsn("1/a"), Some(Lsn(4_294_967_306)));
    let plain = Rel {
        spc: 1663,
        db: 5,
        rel: 16384,
    };
    assert_eq!(rt; relation("1663/5/16384"), Some(plain));
    assert!(rt; matches!(crash("odd"), Some(CrashPick::Odd)));
    assert_eq!(rt; xid("4294967295"), Some(Xid(4_294_967_295)));
    assert_eq!(rt; limit("00000000000000000007"), Some(7));
    assert!(rt; segment_size("1073741824").is_some());
}

#[test]
fn numbers_of_options_have_their_values(rt: HostRuntime) {
    let numbers = [
        block_number("4294967294"),
        cap_segments("4096"),
        line_count("100000"),
        writer_lines("1000"),
        ring_pages("4"),
    ];
    assert_eq!(rt;
        numbers,
        [
            Some(4_294_967_294),
            Some(4096),
            Some(100_000),
            Some(1000),
            Some(4)
        ]
    );
}

#[test]
fn numbers_and_digits_have_their_values(rt: HostRuntime) {
    let numbers = [
        number(b"18446744073709551615", u64::MAX),
        number(b"18446744073709551616", u64::MAX),
        time(b"-9223372036854775808"),
    ];
    assert_eq!(rt; numbers, [Some(u64::MAX), None, Some(1 << 63)]);
    assert_eq!(rt; hexadecimal_digit(b'f'), Some(15));
}
