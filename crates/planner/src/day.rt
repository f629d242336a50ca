//! A day's rows, as the file has them.
use crate::fault::Fault;
use crate::row::{Flaw, HEADER, Row};
use std::alloc::Global;

/// A line that is no row. It is reported, and the others are counted.
#[derive(Clone, Copy)]
pub struct BadLine {
    pub line: usize,
    pub flaw: Flaw,
}

#[derive(Drop)]
pub struct Day {
    pub rows: Vec<Row>,
    pub bad_lines: Vec<BadLine>,
}

impl Day {
    /// Reads a whole file: the header, then a row a line. Lines with nothing on them are passed over.
    pub fn read(heap: Global, text: &str) -> Result<Day, Fault> {
        let mut day = Day {
            rows: Vec::new(heap),
            bad_lines: Vec::new(heap),
        };
        let mut lines = text.lines().enumerate();
        let header = lines.next().map(|(_, text)| text.trim());
        if header != Some(HEADER) {
            return Err(Fault::Header);
        }
        for (k, text) in lines {
            if text.trim().is_empty() {
                continue;
            }
            let line = k.saturating_add(1);
            match Row::read(line, text) {
                Ok(row) => day.rows.push(row)?,
                Err(flaw) => day.bad_lines.push(BadLine { line, flaw })?,
            }
        }
        Ok(day)
    }
}
