//! A table of text whose columns line up.
ghost use Rattle.std.specs.Iterator.{IsFinite};

use crate::fault::Fault;
use std::alloc::{AllocError, Global};
use std::fmt;

/// A head, and below it a cell for each line, all of them to the right.
#[derive(Drop)]
struct Column {
    head: &'static str,
    cells: Vec<String>,
    width: usize,
}

impl Column {
    fn text(&self, line: usize) -> &str {
        self.cells.get(line).map_or("", |cell| cell.as_str())
    }
}

#[derive(Drop)]
pub struct Table {
    heap: Global,
    columns: Vec<Column>,
}

fn push_cell(line: &mut String, text: &str, width: usize) -> Result<(), AllocError> {
    let gap = if line.is_empty() { "" } else { "  " };
    write!(line, "{gap}{text:>width$}")
}

impl Table {
    pub fn new(heap: Global) -> Table {
        let columns = Vec::new(heap);
        Table { heap, columns }
    }

    /// Adds a column with a cell for each figure: a null is a dash.
    pub fn add<T: fmt::Display + Drop, I: Iterator<Item = Option<T>> + Drop>(
        &mut self,
        head: &'static str,
        figures: I,
    ) -> Result<(), AllocError>
        requires can { I.can_next figures }
        requires ends { IsFinite (I.remaining figures) }
    {
        let mut cells = Vec::new(self.heap);
        let mut width = head.len();
        for figure in figures {
            let cell = match figure {
                Some(figure) => figure.to_string(self.heap)?,
                None => String::from_str(self.heap, "-")?,
            };
            width = width.max(cell.len());
            cells.push(cell)?;
        }
        self.columns.push(Column { head, cells, width })?;
        Ok(())
    }

    /// Prints the heads, and below them the lines, so many as the first column has.
    pub fn print(&self, rt: &HostRuntime) -> Result<(), Fault> {
        let mut heads = String::new(self.heap);
        for column in self.columns.iter() {
            push_cell(&mut heads, column.head, column.width)?;
        }
        println!(rt; "{heads}")?;
        let lines = self.columns.first().map_or(0, |column| column.cells.len());
        // By its number, since a line takes one cell of every column.
        for k in 0..lines {
            let mut line = String::new(self.heap);
            for column in self.columns.iter() {
                push_cell(&mut line, column.text(k), column.width)?;
            }
            println!(rt; "{line}")?;
        }
        Ok(())
    }
}
