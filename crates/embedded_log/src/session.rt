// A session is what one thread of the program calls the log with. Between two calls its passes are
// about nothing. With the first one it appends and flushes; the helper makes room for a record that
// the first one has in flight.
use crate::shared::SharedLog;
use std::alloc::Global;
use std::sync::Arc;
use std::sync::atomic::Rule;
use wal_log::{Hard, Pass};
use wal_types::Lsn;

/// One thread's way to the log. It may be handed to another thread, and is in one call at a time.
#[derive(Drop)]
pub struct LogSession<H: Rule> {
    pub(crate) log: Arc<SharedLog<H>, Global>,
    pub(crate) pass: Pass,
    pub(crate) helper: Pass,
    // What the log last promised to be durable, which is held back until the host has made the
    // calls that make it so.
    pub(crate) pending: Option<Hard>,
    // Where the last record ends that it appended.
    pub(crate) appended: Option<Lsn>,
}
