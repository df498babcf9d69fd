// One backend at work. Its thread has the lane alone, and with it a pass of the log that is about
// nothing between two lines. For each line the gate is passed, then its call is made, then the
// answer is noted. So the answers stand in the order of the lines, and line by line they are what
// the pass's log came to have.
ghost use Rattle.std.specs.Prelude.{◌≡◌, ◌≤◌, All, List, [], length, vec_capacity};
ghost use Rattle.machine_state.specs.Words.{log_limit};
ghost use Rattle.wal_log.specs.Logs.{setup_of_log};
ghost use Rattle.wal_log.specs.Standing.{KeepsPass};
ghost use Rattle.run_script.specs.Asked.{AskedLine};
ghost use Rattle.run_script.specs.Bodies.{AreLinesOf};
ghost use Rattle.run_laws.specs.Played.{PlaysAllLines, state_at_first};
ghost use Rattle.run_laws.specs.Reached.{EndsBy};
ghost use Rattle.run_backends.specs.Lanes.{IsReadyLane, PlaysLane};
ghost use Rattle.run_backends.specs.Sessions.{IsSessionOf, state_of_session, view_of_session};

use crate::backend::AnsweredLines;
use crate::gate::Gate;
use crate::session::Session;
use run_laws::KeptTold;
use run_laws::laws::lines_are_played_one_by_one;
use run_script::Line;
use segment_disk::Disk;
use std::sync::Wait;
use wal_log::Wal;

/// A backend at work: its pass, its lines, and what they were told so far.
#[derive(Drop)]
pub(crate) struct Lane<'a> {
    pub session: Session,
    pub backend: AnsweredLines<'a>,
}

impl<'a> Lane<'a> {
    // Plays the backend's lines in order, and notes what each is told in the room there is: nothing
    // takes memory once the log is open. The gate is passed before each line. A line that is
    // refused does not end the backend: the next is tried, and where the disk has failed it is told
    // that, without a device call.
    pub(crate) fn play<R: Wait, D: Disk, G: Gate>(&mut self, rt: &R, log: &Wal<D>, gate: &G)
        requires { IsReadyLane log.now self.old }
        ensures { PlaysLane log.now self.old self.new }
    {
        let backend = &mut self.backend;
        play_lines(
            rt,
            log,
            gate,
            &mut self.session,
            &backend.lines,
            &mut backend.told,
        );
    }
}

// Plays lines in order, by a session that has reserved nothing, and notes each answer in the room
// there is.
fn play_lines<R: Wait, D: Disk, G: Gate>(
    rt: &R,
    log: &Wal<D>,
    gate: &G,
    session: &mut Session,
    lines: &[Line],
    told: &mut Vec<KeptTold>,
)
    // The session's pass is the log's and about nothing; it has no entry and no promise, and no
    // line was told anything.
    requires session { IsSessionOf log.now session.old }
    requires unplayed { state_of_session session.old
        ≡ state_at_first (view_of_session session.old).reserving.seen }
    requires none { told.old.items ≡ [] }
    requires room { length lines.now ≤ vec_capacity told.old }
    // The records that the lines insert can be inserted.
    requires asked { (asked : List AskedLine) × AreLinesOf asked lines.now }
    ensures each { length told.new.items ≡ length lines.now }
    // Whatever the lines ask for, their answers say, one by one, what they added to the pass's log.
    ensures plays { (asked : List AskedLine) → AreLinesOf asked lines.now
        → PlaysAllLines (setup_of_log log.now).seg_size (log_limit (setup_of_log log.now))
        (view_of_session session.new).reserving.number asked told.new.items
        (state_of_session session.new) }
    // The pass is about nothing again, and no line was told an end above the one that is kept.
    ensures session { IsSessionOf log.now session.new }
    ensures keeps { KeepsPass (view_of_session session.old) (view_of_session session.new) }
    ensures ends { All (EndsBy session.new.end.0) told.new.items }
{
    lines_are_played_one_by_one();
    let backend = session.backend();
    for line in lines {
        gate.pass(backend, line.number);
        let answer = session.answer(rt, log, &line.action);
        told.push_reserved(KeptTold::of(answer));
    }
}
