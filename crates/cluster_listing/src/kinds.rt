//! What records are called, by their managers and the upper four bits of their info (the
//! `_identify` functions of PostgreSQL's rmgrdesc).

ghost use Rattle.std.specs.Prelude.{◌≡◌, ◌<◌, ◌≤◌, [], slice_index_or};
ghost use Rattle.cluster_listing.specs.Kinds.{kind_text, kind_word, kind_words, own_kind};

use waldump_text::{RecordWord, record_word};

// Sixteen to a manager, by the upper four bits of the info; some stand for no kind.
static XLOG: [&str; 16] = [
    "CHECKPOINT_SHUTDOWN",
    "CHECKPOINT_ONLINE",
    "NOOP",
    "NEXTOID",
    "SWITCH",
    "BACKUP_END",
    "PARAMETER_CHANGE",
    "RESTORE_POINT",
    "FPW_CHANGE",
    "END_OF_RECOVERY",
    "FPI_FOR_HINT",
    "FPI",
    "",
    "OVERWRITE_CONTRECORD",
    "",
    "",
];

static TRANSACTION: [&str; 16] = [
    "COMMIT",
    "PREPARE",
    "ABORT",
    "COMMIT_PREPARED",
    "ABORT_PREPARED",
    "ASSIGNMENT",
    "INVALIDATION",
    "",
    "COMMIT",
    "PREPARE",
    "ABORT",
    "COMMIT_PREPARED",
    "ABORT_PREPARED",
    "ASSIGNMENT",
    "INVALIDATION",
    "",
];

static STORAGE: [&str; 16] = [
    "", "CREATE", "TRUNCATE", "", "", "", "", "", "", "", "", "", "", "", "", "",
];

static CLOG: [&str; 16] = [
    "ZEROPAGE", "TRUNCATE", "", "", "", "", "", "", "", "", "", "", "", "", "", "",
];

static DATABASE: [&str; 16] = [
    "CREATE_FILE_COPY",
    "CREATE_WAL_LOG",
    "DROP",
    "",
    "",
    "",
    "",
    "",
    "",
    "",
    "",
    "",
    "",
    "",
    "",
    "",
];

static TABLESPACE: [&str; 16] = [
    "CREATE", "DROP", "", "", "", "", "", "", "", "", "", "", "", "", "", "",
];

static MULTI_XACT: [&str; 16] = [
    "ZERO_OFF_PAGE",
    "ZERO_MEM_PAGE",
    "CREATE_ID",
    "TRUNCATE_ID",
    "",
    "",
    "",
    "",
    "",
    "",
    "",
    "",
    "",
    "",
    "",
    "",
];

static REL_MAP: [&str; 16] = [
    "UPDATE", "", "", "", "", "", "", "", "", "", "", "", "", "", "", "",
];

static STANDBY: [&str; 16] = [
    "LOCK",
    "RUNNING_XACTS",
    "INVALIDATIONS",
    "",
    "",
    "",
    "",
    "",
    "",
    "",
    "",
    "",
    "",
    "",
    "",
    "",
];

static HEAP2: [&str; 16] = [
    "REWRITE",
    "PRUNE",
    "VACUUM",
    "FREEZE_PAGE",
    "VISIBLE",
    "MULTI_INSERT",
    "LOCK_UPDATED",
    "NEW_CID",
    "",
    "",
    "",
    "",
    "",
    "MULTI_INSERT+INIT",
    "",
    "",
];

static HEAP: [&str; 16] = [
    "INSERT",
    "DELETE",
    "UPDATE",
    "TRUNCATE",
    "HOT_UPDATE",
    "HEAP_CONFIRM",
    "LOCK",
    "INPLACE",
    "INSERT+INIT",
    "",
    "UPDATE+INIT",
    "",
    "HOT_UPDATE+INIT",
    "",
    "",
    "",
];

static BTREE: [&str; 16] = [
    "INSERT_LEAF",
    "INSERT_UPPER",
    "INSERT_META",
    "SPLIT_L",
    "SPLIT_R",
    "INSERT_POST",
    "DEDUP",
    "DELETE",
    "UNLINK_PAGE",
    "UNLINK_PAGE_META",
    "NEWROOT",
    "MARK_PAGE_HALFDEAD",
    "VACUUM",
    "REUSE_PAGE",
    "META_CLEANUP",
    "",
];

static HASH: [&str; 16] = [
    "INIT_META_PAGE",
    "INIT_BITMAP_PAGE",
    "INSERT",
    "ADD_OVFL_PAGE",
    "SPLIT_ALLOCATE_PAGE",
    "SPLIT_PAGE",
    "SPLIT_COMPLETE",
    "MOVE_PAGE_CONTENTS",
    "SQUEEZE_PAGE",
    "DELETE",
    "SPLIT_CLEANUP",
    "UPDATE_META_PAGE",
    "VACUUM_ONE_PAGE",
    "",
    "",
    "",
];

static GIN: [&str; 16] = [
    "",
    "CREATE_PTREE",
    "INSERT",
    "SPLIT",
    "VACUUM_PAGE",
    "DELETE_PAGE",
    "UPDATE_META_PAGE",
    "INSERT_LISTPAGE",
    "DELETE_LISTPAGE",
    "VACUUM_DATA_LEAF_PAGE",
    "",
    "",
    "",
    "",
    "",
    "",
];

static GIST: [&str; 16] = [
    "PAGE_UPDATE",
    "DELETE",
    "PAGE_REUSE",
    "PAGE_SPLIT",
    "",
    "",
    "PAGE_DELETE",
    "ASSIGN_LSN",
    "",
    "",
    "",
    "",
    "",
    "",
    "",
    "",
];

static SEQUENCE: [&str; 16] = [
    "LOG", "", "", "", "", "", "", "", "", "", "", "", "", "", "", "",
];

static SPGIST: [&str; 16] = [
    "",
    "ADD_LEAF",
    "MOVE_LEAFS",
    "ADD_NODE",
    "SPLIT_TUPLE",
    "PICKSPLIT",
    "VACUUM_LEAF",
    "VACUUM_ROOT",
    "VACUUM_REDIRECT",
    "",
    "",
    "",
    "",
    "",
    "",
    "",
];

static BRIN: [&str; 16] = [
    "CREATE_INDEX",
    "INSERT",
    "UPDATE",
    "SAMEPAGE_UPDATE",
    "REVMAP_EXTEND",
    "DESUMMARIZE",
    "",
    "",
    "",
    "INSERT+INIT",
    "UPDATE+INIT",
    "",
    "",
    "",
    "",
    "",
];

static COMMIT_TS: [&str; 16] = [
    "ZEROPAGE", "TRUNCATE", "", "", "", "", "", "", "", "", "", "", "", "", "", "",
];

static REPLICATION_ORIGIN: [&str; 16] = [
    "SET", "DROP", "", "", "", "", "", "", "", "", "", "", "", "", "", "",
];

static GENERIC: [&str; 16] = [
    "Generic", "Generic", "Generic", "Generic", "Generic", "Generic", "Generic", "Generic",
    "Generic", "Generic", "Generic", "Generic", "Generic", "Generic", "Generic", "Generic",
];

static LOGICAL_MESSAGE: [&str; 16] = [
    "MESSAGE", "", "", "", "", "", "", "", "", "", "", "", "", "", "", "",
];

/// A record's word.
#[derive(Clone, Copy, Debug)]
pub enum KindName {
    Own(&'static str),
    /// Of a kind that its manager does not have, or of a custom manager's.
    Other(RecordWord),
}

impl KindName {
    /// The word in ASCII.
    pub fn as_bytes(&self) -> &[u8]
        ensures { result.now ≡ kind_text self.now }
    {
        match self {
            KindName::Own(word) => word.as_bytes(),
            KindName::Other(word) => word.as_bytes(),
        }
    }
}

/// The word of a record, by its manager's number and its info.
pub fn kind_name(rmid: u8, info: u8) -> KindName
    ensures { kind_text result ≡ kind_word rmid info }
{
    let own = own_kind(rmid, info);
    if own.is_empty() {
        KindName::Other(record_word(rmid, info))
    } else {
        KindName::Own(own)
    }
}

// A record's word in its manager's table, or none.
fn own_kind(rmid: u8, info: u8) -> &'static str
    ensures { result.now ≡ own_kind rmid info }
{
    let kind = (info / 16) as usize;
    if rmid < 6 {
        own_kind_first(rmid, kind)
    } else if rmid < 11 {
        own_kind_second(rmid, kind)
    } else if rmid < 16 {
        own_kind_third(rmid, kind)
    } else if rmid < 22 {
        own_kind_last(rmid, kind)
    } else {
        ""
    }
}

fn own_kind_first(rmid: u8, kind: usize) -> &'static str
    requires manager { (0 ≤ rmid) × (rmid < 6) }
    requires kind { kind < 16 }
    ensures { result.now ≡ slice_index_or (slice_index_or kind_words rmid []) kind [] }
{
    match rmid {
        0 => XLOG[kind],
        1 => TRANSACTION[kind],
        2 => STORAGE[kind],
        3 => CLOG[kind],
        4 => DATABASE[kind],
        _ => TABLESPACE[kind],
    }
}

fn own_kind_second(rmid: u8, kind: usize) -> &'static str
    requires manager { (6 ≤ rmid) × (rmid < 11) }
    requires kind { kind < 16 }
    ensures { result.now ≡ slice_index_or (slice_index_or kind_words rmid []) kind [] }
{
    match rmid {
        6 => MULTI_XACT[kind],
        7 => REL_MAP[kind],
        8 => STANDBY[kind],
        9 => HEAP2[kind],
        _ => HEAP[kind],
    }
}

fn own_kind_third(rmid: u8, kind: usize) -> &'static str
    requires manager { (11 ≤ rmid) × (rmid < 16) }
    requires kind { kind < 16 }
    ensures { result.now ≡ slice_index_or (slice_index_or kind_words rmid []) kind [] }
{
    match rmid {
        11 => BTREE[kind],
        12 => HASH[kind],
        13 => GIN[kind],
        14 => GIST[kind],
        _ => SEQUENCE[kind],
    }
}

fn own_kind_last(rmid: u8, kind: usize) -> &'static str
    requires manager { (16 ≤ rmid) × (rmid < 22) }
    requires kind { kind < 16 }
    ensures { result.now ≡ slice_index_or (slice_index_or kind_words rmid []) kind [] }
{
    match rmid {
        16 => SPGIST[kind],
        17 => BRIN[kind],
        18 => COMMIT_TS[kind],
        19 => REPLICATION_ORIGIN[kind],
        20 => GENERIC[kind],
        _ => LOGICAL_MESSAGE[kind],
    }
}
