//! What ends the program without a report.
use crate::row::HEADER;
use columnar::refusal::Refusal;
use std::alloc::AllocError;
use std::io;
use thiserror::Error;

#[derive(Debug, Drop, Error)]
pub enum Fault {
    /// The arguments are not those of the program.
    #[error("usage: planner FILE [ROWS-IN-A-BATCH [MOST-GROUPS]], both numbers above 0")]
    Usage,
    /// The file cannot be read.
    #[error("{0}: {1}")]
    File(String, io::Error),
    /// The report cannot be printed.
    #[error(transparent)]
    Io(#[from] io::Error),
    /// The first line is not the header.
    #[error("line 1 is not the header {HEADER}")]
    Header,
    /// A call was refused that should not have been.
    #[error("a call was refused: {0}")]
    Refused(#[from] Refusal),
    #[error("no memory is left")]
    Memory(#[from(alloc)] AllocError),
}
