//! What the program is asked to do.
use crate::fault::Fault;
use groups::limits::MOST;
use std::env;
use std::num::NonZeroUsize;

const ROWS: usize = 4096;

#[derive(Drop)]
pub struct Options {
    pub file: String,
    /// The rows of a batch.
    pub rows: NonZeroUsize,
    /// The most groups that are kept.
    pub groups: usize,
}

fn number(arg: Option<String>) -> Result<Option<NonZeroUsize>, Fault> {
    arg.map(|text| text.as_str().parse())
        .transpose()
        .map_err(|_| Fault::Usage)
}

impl Options {
    /// Reads the words after the program's own name.
    pub fn read(mut args: env::Args) -> Result<Options, Fault> {
        let _ = args.next();
        let file = args.next().ok_or(Fault::Usage)?;
        let rows = number(args.next())?.unwrap_or(NonZeroUsize::new(ROWS).unwrap());
        let groups = number(args.next())?.map_or(MOST, |n| n.get().min(MOST));
        if args.next().is_some() {
            return Err(Fault::Usage);
        }
        Ok(Options { file, rows, groups })
    }
}
