//! What is printed for who asks for help.

ghost use Rattle.std.specs.Prelude.{◌≡◌};
ghost use Rattle.cli_line.specs.Texts.{help, version};

const VERSION_LINE: &str = "pgwal 0.1
";

const HELP: &str = "pgwal writes a write-ahead log in PostgreSQL 16's format, and lists it.

pgwal run [--seg N] [--ring N] [--cap N] [--list] [--writer N] [--append]
    Writes a log into the folder pg_wal, from the script on standard input. The script has the
    lines of at most 64 backends, with a line B between two of them; the backends do their lines
    side by side.
    --seg N    a segment's size in bytes, a power of two from 1048576 to 1073741824
               (16777216 where it is not given)
    --ring N   how many pages the log keeps in memory, 4 to 64 (64)
    --cap N    how many segments the log may fill, 1 to 4096 (64)
    --list     prints a line for each line of the script
    --writer N adds a log writer, as a backend behind the script's last: it flushes N times, 1 to
               1000, and so makes commits durable that lines A were answered for
    --append   goes on with the log that is there, also one that a crash left: what it holds is
               made durable, what lies behind its end is cleared, and the script's records follow
               it. Prints first how many records were found, and where they end. A damage ends the
               log as a crash does: call dump --quiet first, and keep a copy where it does not end
               with 0. After status 4 start the machine anew first
    Example: an insert and a commit
        printf 'I 700 10 00 aabb\\nC 700 0\\n' | pgwal run --list
    Example: a commit that is answered before it is durable, and a log writer that makes it so
        printf 'A 700 0\\n' | pgwal run --list --writer 10
    Example: a segment switch between two commits: the second one is in the next segment
        printf 'C 700 0\\nW\\nC 701 0\\n' | pgwal run --list
    Example: one more commit, behind all that is there
        printf 'C 702 0\\n' | pgwal run --append --list

pgwal gen N [--seg N] [--ring N] [--cap N] [--list]
    Writes a log into the folder pg_wal as run does, of lines that are made in place of a script:
    four backends have N lines each, 1 to 100000. Each tenth line commits, and the others insert
    up to 1499 bytes, one of ten with a page's image.
    --seg N, --ring N, --cap N, --list
               as for run
    Example: four thousand lines, with segments of 1 MiB
        pgwal gen 1000 --seg 1048576

pgwal replay [--seg N] [--ring N] [--cap N] [--crash old|new|odd]
    Plays the script on standard input turn by turn on a machine of its own, prints how many of
    its lines each backend has done, and lists the log that a crash of the machine's disk leaves.
    The script has the lines of at most 64 backends, with a line B between two of them, and behind
    a line S the schedule: an item N gives backend N, from 0 on, the next turn, and N*COUNT the
    next 1 to 1000000 turns; all items together have at most 10000000 turns.
    --seg N, --ring N, --cap N
                          as for run
    --crash old|new|odd   what is left of the words written since a sync: the durable word (old),
                          the one written last (new, where it is not given), or that one of words
                          of odd number in their page and the durable one of the others (odd)
    Example: of two backends the second commits first
        printf 'C 1 0\\nB\\nC 2 0\\nS\\n1*100000 0*100000\\n' | pgwal replay --crash old

pgwal dump [--seg N] [FILTER]..
    Lists the log in the folder pg_wal: a line for each record that all filters keep. From where
    no segment is it prints nothing, with status 0: of a log without segment 1 give the start.
    --seg N                the segments' size, as the log was written
    -r, --rmgr NAME        records of a resource manager, as heap or custom128
    -x, --xid N            of a transaction
    -R, --relation T/D/R   of a relation: its tablespace, its database and its number
    -B, --block N          of a block of that relation
    -F, --fork NAME        of a fork: main, fsm, vm or init
    -w, --fullpage         with a page's image
    -s, --start LSN        from an address on, as 0/01000028; a segment starts at its number times
                           its size
    -e, --end LSN          that end below an address
    -n, --limit N          at most so many
    -q, --quiet            prints nothing: the status tells whether the log is sound
    -z, --stats            in place of the records, a line for each resource manager that wrote
                           any, and one for all: how many, and their bytes without images, of
                           images, and together. A log that is damaged gives none
        --times            with the date and time of each commit, in UTC
    Example: the first ten changes of a block
        pgwal dump --rmgr heap --relation 1663/5/16384 --block 8 --limit 10
    Example: the log in another folder, from segment 3 on
        ln -s DIR pg_wal && pgwal dump --start 0/03000000

pgwal redo [--seg N]
    Puts the page images that the log in the folder pg_wal carries for redo into a store in
    memory, and prints a line for each block that they fill: its relation, fork and number, and
    how many bytes of its page are not 0; then how many images and blocks they were. Of a log
    that is damaged it prints only where, on standard error.
    --seg N    the segments' size, as the log was written
    Example: the blocks that a run of made lines fills
        pgwal gen 10 && pgwal redo

pgwal send [--seg N] [--from LSN]
    Sends the log in the folder pg_wal to standard output. First all that is there is made
    durable; then its pages go as frames, one for each, up to where the log ends. Of a log that is
    damaged nothing is sent.
    --seg N     the segments' size, as the log was written
    --from LSN  begins with the page that holds this address, as 0/01002000

pgwal receive [--seg N] [--cap N]
    Keeps a copy of a log in the folder pg_wal. Takes the frames on standard input that go on
    where the copy ends, writes their pages, and at the end makes them durable. Prints where the
    copy ends then, how many frames were taken, how many were old, since the copy had them, how
    many came behind a gap, and how many were bad: cut, garbled, or of no such log. Frames may be
    lost, repeated and out of order: what was not taken may be sent again.
    --seg N    the segments' size, as the log was written
    --cap N    as for run
    Frames are neither secret nor signed: who can write to the link can forge a log.
    Example: a copy of the log on another machine, over ssh
        pgwal send | ssh standby 'cd /srv/copy && pgwal receive'

pgwal help, -h or --help prints this text, -V or --version the program's version.

Status:
    0  all is done
    1  memory ran out
    2  the command line is faulty, or asks for help or the version
    3  a line of the script is refused
    4  the disk failed, or another command writes in the folder, or a file in it is in the way
    5  the log is full
    6  the log that is listed, redone, sent or gone on with is damaged, or holds what is not read;
       or frames came of another log than that of the copy
    7  the script, or the frames, could not be read
    8  the output could not be written
    9  a log is there already
   10  the log that is to be gone on with has more segments than it may fill
   11  more than 1048576 frames came
";

/// What help prints: what each command does, its options with an example, and the statuses.
pub fn help_text() -> &'static str
    ensures { result.now ≡ help }
{
    HELP
}

/// The line that tells the program's version.
pub fn version_text() -> &'static str
    ensures { result.now ≡ version }
{
    VERSION_LINE
}
