ghost use Rattle.std.specs.Prelude.{◌≡◌, ◌<◌, ◌≤◌, IsTrue, length, not};
ghost use Rattle.wal_spelling.specs.Record.{is_free_manager};
ghost use Rattle.waldump_text.specs.Names.{manager_name, own_word, record_word, unknown_word, lower_digit, name_text, word_text};

use waldump_filter::own_manager_name;

/// The name of a resource manager.
#[derive(Clone, Copy, Debug)]
pub enum ManagerName {
    /// One of PostgreSQL's own.
    Own(&'static str),
    /// `custom` and the manager's number in three digits.
    Custom([u8; 9]),
}

impl ManagerName {
    pub fn as_bytes(&self) -> &[u8]
        ensures { result.now ≡ name_text self.now }
    {
        match self {
            ManagerName::Own(name) => name.as_bytes(),
            ManagerName::Custom(name) => name,
        }
    }
}

/// The name of the manager with a number that managers have: to 21, or from 128 on.
pub fn manager_name(rmid: u8) -> ManagerName
    requires { IsTrue (not (is_free_manager rmid)) }
    ensures text { name_text result ≡ manager_name rmid }
    ensures short { length (name_text result) ≤ 17 }
{
    if rmid < 128 {
        return ManagerName::Own(own_manager_name(rmid));
    }
    let mut name = *b"custom000";
    name[6] += rmid / 100;
    name[7] += rmid / 10 % 10;
    name[8] += rmid % 10;
    ManagerName::Custom(name)
}

/// What a record does, in its manager's words.
#[derive(Clone, Copy, Debug)]
pub enum RecordWord {
    Known(&'static str),
    /// `UNKNOWN` and the upper four bits of the record's info.
    Unknown([u8; 12]),
}

impl RecordWord {
    pub fn as_bytes(&self) -> &[u8]
        ensures { result.now ≡ word_text self.now }
    {
        match self {
            RecordWord::Known(word) => word.as_bytes(),
            RecordWord::Unknown(word) => word,
        }
    }
}

// The words of a manager's records by the upper four bits of their info; some have none.
static XLOG_WORDS: [&str; 14] = [
    "CHECKPOINT_SHUTDOWN",
    "CHECKPOINT_ONLINE",
    "NOOP",
    "NEXTOID",
    "SWITCH",
    "BACKUP_END",
    "PARAMETER_CHANGE",
    "RESTORE_POINT",
    "FPW_CHANGE",
    "END_OF_RECOVERY",
    "FPI_FOR_HINT",
    "FPI",
    "",
    "OVERWRITE_CONTRECORD",
];

static HEAP_WORDS: [&str; 13] = [
    "INSERT",
    "DELETE",
    "UPDATE",
    "TRUNCATE",
    "HOT_UPDATE",
    "HEAP_CONFIRM",
    "LOCK",
    "INPLACE",
    "INSERT+INIT",
    "",
    "UPDATE+INIT",
    "",
    "HOT_UPDATE+INIT",
];

static MESSAGE_WORDS: [&str; 1] = ["MESSAGE"];

// Those of transactions by bits 4 to 6; no record has the last.
static TRANSACTION_WORDS: [&str; 7] = [
    "COMMIT",
    "PREPARE",
    "ABORT",
    "COMMIT_PREPARED",
    "ABORT_PREPARED",
    "ASSIGNMENT",
    "INVALIDATION",
];

/// The word of a record, by its manager's number and its info.
#[tactic(auto, using(crate::proofs::WordLaws::short_word))]
pub fn record_word(rmid: u8, info: u8) -> RecordWord
    ensures text { word_text result ≡ record_word rmid info }
    ensures short { length (word_text result) ≤ 20 }
{
    let word = own_word(rmid, info);
    if word.is_empty() {
        unknown_word(info)
    } else {
        RecordWord::Known(word)
    }
}

// A record's word in its manager's table, or none.
fn own_word(rmid: u8, info: u8) -> &'static str
    ensures { result.now ≡ own_word rmid info }
{
    let kind = (info / 16) as usize;
    match rmid {
        0 if kind < XLOG_WORDS.len() => XLOG_WORDS[kind],
        1 if kind % 8 < TRANSACTION_WORDS.len() => TRANSACTION_WORDS[kind % 8],
        10 if kind < HEAP_WORDS.len() => HEAP_WORDS[kind],
        21 if kind < MESSAGE_WORDS.len() => MESSAGE_WORDS[kind],
        _ => "",
    }
}

// PostgreSQL prints the upper four bits in place, as `80`, and no leading zero.
fn unknown_word(info: u8) -> RecordWord
    ensures text { word_text result ≡ unknown_word info }
    ensures short { length (word_text result) ≤ 20 }
{
    match info / 16 {
        0 => RecordWord::Known("UNKNOWN (0)"),
        high => {
            let mut word = *b"UNKNOWN (00)";
            word[9] = lower_digit(high);
            RecordWord::Unknown(word)
        }
    }
}

// The lower-case hexadecimal digit of a number below 16.
fn lower_digit(n: u8) -> u8
    requires { n < 16 }
    ensures { result ≡ lower_digit n }
{
    if n < 10 { b'0' + n } else { b'a' - 10 + n }
}
