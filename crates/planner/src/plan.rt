//! What each batch is handed, what became of it, and which groups are closed after it.
use crate::day::Day;
use crate::fault::Fault;
use crate::pack::{Series, Ticks};
use crate::row::Row;
use columnar::refusal::Refusal;
use std::alloc::{AllocError, Global};
use std::num::NonZeroUsize;

/// A batch: its rows, how many groups are kept with it, its refusal, and how many groups are closed after it.
#[derive(Clone, Copy)]
pub struct Turn {
    // Not a `Range`: that is no `Copy`, and its copy may fail.
    pub from: usize,
    pub to: usize,
    pub total: usize,
    pub refusal: Option<Refusal>,
    pub closes: usize,
}

impl Turn {
    /// Whether its rows were counted.
    pub fn is_counted(&self) -> bool {
        self.refusal.is_none()
    }

    /// What lies at its rows.
    pub fn of<'x, T>(&self, column: &'x [T]) -> &'x [T] {
        column.get(self.from..self.to).unwrap_or(&[])
    }
}

#[derive(Drop)]
pub struct Plan {
    /// The rows of a batch, and the most groups that are kept.
    pub size: NonZeroUsize,
    pub most_groups: usize,
    pub ticks: Ticks,
    /// Each row's group as it is handed over: its opening number, less the groups closed before its batch.
    pub indices: Vec<usize>,
    pub turns: Vec<Turn>,
    /// For each group, one past the last row that names it.
    // A list and no map: groups are numbered from 0 on.
    ends: Vec<usize>,
    opened: usize,
    closed: usize,
}

/// A group opens with a row that names it, so none opens from the number of rows on.
fn group_ends(heap: Global, rows: &[Row]) -> Result<Vec<usize>, AllocError> {
    let mut ends = vec![in heap; 0usize; rows.len()]?;
    for (k, row) in rows.iter().enumerate() {
        if let Some(end) = ends.get_mut(row.group) {
            *end = k + 1;
        }
    }
    Ok(ends)
}

impl Plan {
    // The heap is a handle of its own, and a plan is made of a day: neither is part of it.
    pub fn new(
        heap: Global,
        day: &Day,
        size: NonZeroUsize,
        most_groups: usize,
    ) -> Result<Plan, AllocError> {
        let rows = day.rows.as_slice();
        Ok(Plan {
            size,
            most_groups,
            ticks: Series::pack(heap, rows, |row| row.delivered, false)?,
            indices: Vec::new(heap),
            turns: Vec::new(heap),
            ends: group_ends(heap, rows)?,
            opened: 0,
            closed: 0,
        })
    }

    /// The next batch, of these rows.
    pub fn propose(&mut self, rows: &[Row]) -> Result<Turn, Fault> {
        let from = self.indices.len();
        let closed = self.closed;
        // No row names a closed group; were there one, its index would lie above every total, and be refused.
        let indices = rows.iter().map(|row| row.group.wrapping_sub(closed));
        self.indices.extend(indices)?;
        let opened = rows.iter().map(|row| row.group.saturating_add(1)).max();
        Ok(Turn {
            from,
            to: self.indices.len(),
            total: opened.unwrap_or(0).max(self.opened).saturating_sub(closed),
            refusal: None,
            closes: 0,
        })
    }

    /// How many of the first kept groups no row from `to` on names.
    fn complete(&self, to: usize) -> usize {
        let kept = self.opened.saturating_sub(self.closed);
        let ends = self.ends.get(self.closed..).unwrap_or(&[]);
        let first = ends.iter().take(kept).position(|end| *end > to);
        first.unwrap_or(kept)
    }

    /// Notes what became of a batch, and answers how many groups are closed after it. A refused batch opens none.
    pub fn settle(&mut self, mut turn: Turn, refusal: Option<Refusal>) -> Result<usize, Fault> {
        turn.refusal = refusal;
        if turn.is_counted() {
            self.opened = self.closed.saturating_add(turn.total);
        }
        // What is left after the last batch is closed all at once.
        if turn.to < self.ends.len() {
            turn.closes = self.complete(turn.to);
        }
        self.closed = self.closed.saturating_add(turn.closes);
        self.turns.push(turn)?;
        Ok(turn.closes)
    }
}

/// A day's rows, and the batches in which an accumulator is handed them.
#[derive(Clone, Copy)]
pub struct Batches<'x> {
    pub rows: &'x [Row],
    pub turns: &'x [Turn],
}

/// What is counted of rows: how many, how many cells of each kind are null, and why rows are left out.
#[derive(Clone, Copy, Default)]
pub struct Counts {
    pub rows: usize,
    pub signed: usize,
    pub grams: usize,
    pub parcels: usize,
    pub floor: usize,
    pub altitude: usize,
    pub moment: usize,
    pub delivered_no: usize,
    pub delivered_null: usize,
}

impl Counts {
    fn with(self, row: &Row) -> Counts {
        Counts {
            rows: self.rows.saturating_add(1),
            signed: self.signed.saturating_add(row.signed.is_none() as usize),
            grams: self.grams.saturating_add(row.grams.is_none() as usize),
            parcels: self.parcels.saturating_add(row.parcels.is_none() as usize),
            floor: self.floor.saturating_add(row.floor.is_none() as usize),
            altitude: self
                .altitude
                .saturating_add(row.altitude.is_none() as usize),
            moment: self.moment.saturating_add(row.moment.is_none() as usize),
            delivered_no: self
                .delivered_no
                .saturating_add((row.delivered == Some(false)) as usize),
            delivered_null: self
                .delivered_null
                .saturating_add(row.delivered.is_none() as usize),
        }
    }
}

impl Batches<'_> {
    /// How many rows are in the batches that were counted.
    pub fn len(self) -> usize {
        self.turns
            .iter()
            .filter(|turn| turn.is_counted())
            .map(|turn| turn.of(self.rows).len())
            .fold(0, usize::saturating_add)
    }

    /// What is counted of their rows, which are read once for all of it.
    pub fn counts(self) -> Counts {
        let mut counts = Counts::default();
        for turn in self.turns.iter().filter(|turn| turn.is_counted()) {
            counts = turn
                .of(self.rows)
                .iter()
                .fold(counts, |counts, row| counts.with(row));
        }
        counts
    }
}
