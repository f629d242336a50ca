//! Part of a day's rows, under group numbers of its own.
use crate::day::Day;
use crate::fault::Fault;
use crate::plan::{Batches, Plan, Turn};
use crate::row::Row;
use indexmap::IndexSet;
use std::alloc::Global;
use std::ops::Range;

/// The batches of an accumulator that is handed these rows alone: it opens a group with the first of them that names it.
#[derive(Drop)]
pub struct Part {
    pub turns: Vec<Turn>,
    /// For each row of the day, its group's number here.
    pub indices: Vec<usize>,
    /// The day's groups that are here, in the order of their numbers here.
    pub groups: IndexSet<usize>,
}

impl Part {
    /// The day's counted rows among these.
    // The heap is a handle of its own, and a plan is made of a day: neither is part of it.
    pub fn new(heap: Global, day: &Day, plan: &Plan, rows: Range<usize>) -> Result<Part, Fault> {
        let mut part = Part {
            turns: Vec::new(heap),
            indices: vec![in heap; 0usize; day.rows.len()]?,
            groups: IndexSet::new(heap),
        };
        for turn in plan.turns.iter().filter(|turn| turn.is_counted()) {
            part.push(day, turn.from.max(rows.start), turn.to.min(rows.end))?;
        }
        Ok(part)
    }

    /// Adds a batch of the day's rows, unless it has none.
    // Its ends are two numbers, as those of a turn.
    fn push(&mut self, day: &Day, from: usize, to: usize) -> Result<(), Fault> {
        if from >= to {
            return Ok(());
        }
        let rows = day.rows.get(from..to).unwrap_or(&[]);
        if let Some(indices) = self.indices.as_mut_slice().get_mut(from..to) {
            // Rows of one group often come one after another: the set is asked once for them.
            let mut last: Option<(usize, usize)> = None;
            for (index, row) in indices.iter_mut().zip(rows) {
                let number = match last {
                    Some((group, number)) if group == row.group => number,
                    _ => self.groups.insert_full(row.group)?.0,
                };
                *index = number;
                last = Some((row.group, number));
            }
        }
        self.turns.push(Turn {
            from,
            to,
            total: self.groups.len(),
            refusal: None,
            closes: 0,
        })?;
        Ok(())
    }

    /// The number here of one of the day's groups: the next one for a group that has none.
    pub fn open(&mut self, group: usize) -> Result<usize, Fault> {
        let (number, _) = self.groups.insert_full(group)?;
        Ok(number)
    }

    /// Its batches, over the day's rows.
    pub fn batches<'x>(&'x self, rows: &'x [Row]) -> Batches<'x> {
        let turns = self.turns.as_slice();
        Batches { rows, turns }
    }
}
