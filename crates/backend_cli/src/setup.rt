ghost use Rattle.std.specs.Prelude.{◌≡◌, ◌≤◌, List, length, vec_len};
ghost use Rattle.cli_line.specs.Given.{IsShapeInRange};
ghost use Rattle.machine_state.specs.Sound.{IsSetup};
ghost use Rattle.run_script.specs.Replay.{most_backends};
ghost use Rattle.run_script.specs.Asked.{AskedLine};
ghost use Rattle.backend_cli.specs.Prepared.{IsPreparedFor};
ghost use Rattle.backend_cli.specs.Setups.{run_setup, setup_asked};

use byte_position::Geometry;
use cli_line::RunOptions;
use machine_state::Setup;
use run_backends::Room;

// The system id of each log that this program writes.
const SYSTEM_ID: u64 = 1;

/// The setup of the log of so many backends: a pass for each, and one more, which opens it.
pub(crate) fn setup_asked(
    geometry: Geometry,
    ring_pages: u32,
    cap_segments: u32,
    backends: u32,
) -> Setup
    requires in_range { IsShapeInRange ring_pages cap_segments }
    requires few { backends ≤ most_backends }
    ensures value { result ≡ setup_asked geometry ring_pages cap_segments backends }
    ensures can_be { IsSetup result }
{
    Setup {
        seg_size: geometry.segment_size(),
        ring_pages,
        cap_segments,
        sysid: SYSTEM_ID,
        passes: backends + 1,
    }
}

/// The setup of a run's log, whose backends have this room.
pub(crate) fn run_setup(options: &RunOptions, room: &Room) -> Setup
    requires in_range { IsShapeInRange options.now.ring_pages options.now.cap_segments }
    requires prepared { (script : List (List AskedLine)) × IsPreparedFor script room.now }
    ensures of_room { result ≡ run_setup options.now (vec_len room.now.backends) }
    ensures of_script { (script : List (List AskedLine)) → IsPreparedFor script room.now
        → result ≡ run_setup options.now (length script) }
    ensures can_be { IsSetup result }
{
    setup_asked(
        options.geometry,
        options.ring_pages,
        options.cap_segments,
        room.backends.len() as u32,
    )
}
