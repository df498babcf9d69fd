//! Plays rows of commands over a disk in memory, and prints a transcript of them.
#![tactic(auto)]

mod directive;
mod halt;
mod pages;
mod player;
mod words;

use directive::asked_by;
use halt::Halt;
use player::RowPlayer;
use std::io::{self, Write};
use std::process::ExitCode;
use std::sync::Wait;
use std::thread::Threads;

// Plays each row, up to one that cannot be played.
fn play<R: Threads + Wait + Sync>(rt: &R, rows: &str, player: &mut RowPlayer) -> Result<(), Halt> {
    for row in rows.lines() {
        let played = match asked_by(player.alloc(), row) {
            Ok(asked) => player.play(rt, row, asked),
            Err(stop) => Err(stop),
        };
        if let Err(stop) = played {
            player.tell_stop(row)?;
            return Err(stop);
        }
    }
    Ok(())
}

fn main(rt: HostRuntime) -> ExitCode {
    let alloc = rt.alloc();
    let Ok(rows) = io::read_to_string(alloc, rt.reader()) else {
        return ExitCode::FAILURE;
    };
    let mut player = RowPlayer::new(alloc);
    let played = play(&rt, rows.as_str(), &mut player);
    let printed = io::writer(&rt).write_all(player.transcript());
    if played.is_ok() && printed.is_ok() {
        ExitCode::SUCCESS
    } else {
        ExitCode::FAILURE
    }
}
