/// In which form a record is printed.
#[derive(Clone, Copy, Debug, PartialEq, Eq)]
pub enum Form {
    /// Not at all.
    Quiet,
    /// A line, as pg_waldump's. `whole` says whether all of the main data is shown, or its first
    /// 64 bytes.
    Line { whole: bool },
    /// A JSON object on a line.
    Json { whole: bool },
}
