ghost use Rattle.std.specs.Prelude.{◌≡◌, ◌<◌, ◌≤◌, [], length, slice_index_or, IfSome};
ghost use Rattle.waldump_filter.specs.Names.{fork_names, fork_named, is_same_name, manager_names, own_manager_of};

// PostgreSQL's own managers, by their numbers.
static OWN_MANAGERS: [&str; 22] = [
    "XLOG",
    "Transaction",
    "Storage",
    "CLOG",
    "Database",
    "Tablespace",
    "MultiXact",
    "RelMap",
    "Standby",
    "Heap2",
    "Heap",
    "Btree",
    "Hash",
    "Gin",
    "Gist",
    "Sequence",
    "SPGist",
    "BRIN",
    "CommitTs",
    "ReplicationOrigin",
    "Generic",
    "LogicalMessage",
];

/// The name of one of PostgreSQL's own managers.
pub fn own_manager_name(rmid: u8) -> &'static str
    requires { rmid < 22 }
    ensures text { result.now ≡ slice_index_or manager_names rmid [] }
    ensures short { length result.now ≤ 17 }
{
    OWN_MANAGERS[rmid as usize]
}

/// The number of one of PostgreSQL's own managers, by its name in any case of ASCII letters.
pub fn own_manager(word: &str) -> Option<u8>
    ensures value { result ≡ own_manager_of word.now }
    ensures within { IfSome result (λ rmid. rmid < 22) }
{
    for rmid in 0..22 {
        if is_same_name(own_manager_name(rmid), word) {
            return Some(rmid);
        }
    }
    None
}

fn is_same_name(a: &str, b: &str) -> bool
    ensures { result ≡ is_same_name a.now b.now }
{
    a.eq_ignore_ascii_case(b)
}

static FORK_NAMES: [&str; 4] = ["main", "fsm", "vm", "init"];

/// The name of a relation's fork, by a number that forks have.
pub fn fork_name(fork: u8) -> &'static str
    requires { fork ≤ 3 }
    ensures text { result.now ≡ slice_index_or fork_names fork [] }
    ensures short { length result.now ≤ 4 }
{
    FORK_NAMES[fork as usize]
}

/// The number of a relation's fork, by its name.
pub fn fork(word: &str) -> Option<u8>
    ensures value { result ≡ fork_named word.now }
    ensures within { IfSome result (λ fork. fork ≤ 3) }
{
    match word {
        "main" => Some(0),
        "fsm" => Some(1),
        "vm" => Some(2),
        "init" => Some(3),
        _ => None,
    }
}
