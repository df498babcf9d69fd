//! What is read of scripts: of one backend, of a run, of a replay, and of a schedule alone.

use bumpalo::Bump;
use run_script::{
    Action, Item, Line, ParseError, Refusal, ScriptFault, parse, parse_replay, parse_run,
    parse_schedule,
};
use std::process::Abort;
use std::test::Fail;

// The letter of the line that asks for an action.
fn letter(action: &Action) -> u8 {
    match action {
        Action::Insert(_) => b'I',
        Action::Commit(_) => b'C',
        Action::Flush => b'F',
        Action::CommitAsync(_) => b'A',
        Action::WriteBehind => b'L',
        Action::Switch(_) => b'W',
    }
}

// Tries that a backend has these lines, each a number and a letter.
fn has_lines<R: Abort>(rt: &R, lines: &[Line], wanted: &[(u32, u8)]) {
    assert_eq!(rt; lines.len(), wanted.len());
    for (row, line) in lines.iter().enumerate() {
        let told = (line.number, letter(&line.action));
        assert!(rt; wanted.get(row) == Some(&told), "row {row}");
    }
}

#[test]
fn a_script_of_one_backend_is_read(rt: HostRuntime) -> Result<(), Fail> {
    let lines = parse(rt.alloc(), b"# one\n\nC 700 0\n\nI 1 10 00 aa\nF")?;
    has_lines(&rt, &lines, &[(3, b'C'), (5, b'I'), (6, b'F')]);
    let refusal = ParseError::Refused(Refusal {
        line: 1,
        fault: ScriptFault::Backends,
    });
    assert!(rt; parse(rt.alloc(), b"B").err() == Some(refusal));
    Ok(())
}

// A run's script, how many lines its writer has, and the lines of each.
static RUNS: &[(&[u8], Option<u32>, [&[(u32, u8)]; 2])] = &[
    (
        b"C 1 0\nW\nB\nC 2 0",
        None,
        [&[(1, b'C'), (2, b'W')], &[(4, b'C')]],
    ),
    // The writer's are behind those of the run.
    (
        b"A 1 0\nL",
        Some(3),
        [&[(1, b'A'), (2, b'L')], &[(1, b'L'), (2, b'L'), (3, b'L')]],
    ),
];

#[test]
fn the_script_of_a_run_is_read(rt: HostRuntime) -> Result<(), Fail> {
    for (script, of_writer, wanted) in RUNS {
        let arena = Bump::new(rt.alloc());
        let backends = parse_run(rt.alloc(), &arena, script, *of_writer)?;
        assert_eq!(rt; backends.len(), 2);
        has_lines(&rt, &backends[0], wanted[0]);
        has_lines(&rt, &backends[1], wanted[1]);
    }
    Ok(())
}

#[test]
fn a_segment_switch_has_no_field_and_is_of_runs_alone(rt: HostRuntime) {
    let count = ParseError::Refused(Refusal {
        line: 2,
        fault: ScriptFault::Count,
    });
    let arena = Bump::new(rt.alloc());
    assert!(rt; parse_run(rt.alloc(), &arena, b"W\nW 1", None).err() == Some(count));
    let word = ParseError::Refused(Refusal {
        line: 2,
        fault: ScriptFault::Word,
    });
    assert!(rt; parse_replay(rt.alloc(), b"F\nW").err() == Some(word));
}

#[test]
fn the_script_of_a_replay_is_read(rt: HostRuntime) -> Result<(), Fail> {
    let script = b"I 1 10 00 aa\nC 1 0\nB\n# the second\nF\nS\n# turns\n1*100000 0\n";
    let replay = parse_replay(rt.alloc(), script)?;
    assert_eq!(rt; replay.backends.len(), 2);
    has_lines(&rt, &replay.backends[0], &[(1, b'I'), (2, b'C')]);
    has_lines(&rt, &replay.backends[1], &[(5, b'F')]);
    let first = Item {
        backend: 1,
        turns: 100_000,
    };
    let last = Item {
        backend: 0,
        turns: 1,
    };
    assert_eq!(rt; replay.schedule.items(), [first, last].as_slice());
    Ok(())
}

#[test]
fn ten_million_turns_are_taken(rt: HostRuntime) {
    let text = b"0*1000000 0*1000000 0*1000000 0*1000000 0*1000000\n\
        1*1000000 1*1000000 1*1000000 1*1000000 1*1000000";
    let Ok(schedule) = parse_schedule(rt.alloc(), text, 7, 2) else {
        panic!(rt; "refused");
    };
    assert_eq!(rt; schedule.items().len(), 10);
    assert_eq!(rt; schedule.turns(), 10_000_000);
}
