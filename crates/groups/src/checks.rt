ghost use Rattle.std.specs.Prelude.{◌≡◌, ◌-◌, ◌<◌, ◌≤◌, not, [], ◌∷◌, length, take, drop, ◌==◌, nat_lt};
ghost use Rattle.std.specs.Option.{unwrap_or};
ghost use Rattle.std.specs.Result.{result_err};
ghost use Rattle.std.specs.List.{AllByRecursion, list_all};
ghost use Rattle.groups.specs.Lists.{all_below, names_from};
ghost use Rattle.groups.specs.Lines.{batch_line};
ghost use Rattle.groups.specs.Named.{named_marks};
ghost use Rattle.groups.specs.InLine.{FirstByNumber};
ghost use Rattle.groups.specs.Tally.{foremost, refusal};
ghost use Rattle.columnar.specs.declared.refusal.Refusal.TheVariants.{TooManyRows, IndexCount, FilterLength, TotalBelowKept, TotalAboveLimit, IndexAboveTotal};

use crate::limits::BatchLimits;
use crate::moves::fill_part;
use columnar::refusal::Refusal;

/// A batch as it is handed over: how many rows it has, the group of each, the length of a filter that is given, and how
/// many groups there are to be.
#[derive(Clone, Copy)]
pub struct Batch<'a> {
    pub rows: usize,
    pub group_indices: &'a [usize],
    pub ticked: Option<usize>,
    pub total: usize,
}

/// Whether each group index is below the total.
fn all_below(group_indices: &[usize], total: usize) -> bool
    ensures { result ≡ all_below total group_indices.now }
{
    group_indices.iter().all(|group| *group < total)
}

/// Sets a mark for each group that is named and not kept yet.
fn mark_named(marks: &mut [bool], group_indices: &[usize], kept: usize)
    requires { AllByRecursion (λ k. k < length marks.old) group_indices.now }
    ensures { marks.new ≡ named_marks kept marks.old group_indices.now }
{
    for group in group_indices {
        if *group >= kept {
            marks[*group] = true;
        }
    }
}

/// Whether each mark from `from` up to `to` is set.
// Two numbers, as in `fill_part`.
fn all_set(marks: &[bool], from: usize, to: usize) -> bool
    requires order { from ≤ to }
    requires within { to ≤ length marks.now }
    ensures { result ≡ list_all (λ mark. mark) (take (to - from) (drop from marks.now)) }
{
    marks[from..to].iter().all(|mark| *mark)
}

/// Whether each group from `kept` up to `total` is named by a row, in time linear in rows and groups.
/// The marks from `kept` up to `total` serve as a table; those of the kept groups stay.
#[tactic(auto, using(crate::proofs::NamedGroups::names_answer, crate::proofs::NamedGroups::table_front))]
fn names_all(marks: &mut [bool], group_indices: &[usize], kept: usize, total: usize) -> bool
    requires order { kept ≤ total }
    requires within { total ≤ length marks.old }
    requires named { AllByRecursion (λ k. k < total) group_indices.now }
    ensures answer { result ≡ names_from kept (total - kept) group_indices.now }
    ensures marks { take kept marks.new ≡ take kept marks.old }
{
    fill_part(marks, kept, total, false);
    mark_named(marks, group_indices, kept);
    all_set(marks, kept, total)
}

impl Batch<'_> {
    /// The refusals that need no memory, 5 to 10, in their order.
    fn refuse_early(&self, limits: BatchLimits, kept: usize) -> Result<(), Refusal>
        ensures { result_err result ≡ foremost ((nat_lt limits.rows self.now.rows, TooManyRows) ∷ (not (self.now.rows == length self.now.group_indices.now), IndexCount) ∷ (not (unwrap_or self.now.ticked self.now.rows == self.now.rows), FilterLength) ∷ (nat_lt self.now.total kept, TotalBelowKept) ∷ (nat_lt limits.groups self.now.total, TotalAboveLimit) ∷ (not (all_below self.now.total self.now.group_indices.now), IndexAboveTotal) ∷ []) }
    {
        if self.rows > limits.rows {
            return Err(Refusal::TooManyRows);
        }
        if self.rows != self.group_indices.len() {
            return Err(Refusal::IndexCount);
        }
        if self.ticked.unwrap_or(self.rows) != self.rows {
            return Err(Refusal::FilterLength);
        }
        if self.total < kept {
            return Err(Refusal::TotalBelowKept);
        }
        if self.total > limits.groups {
            return Err(Refusal::TotalAboveLimit);
        }
        if !all_below(self.group_indices, self.total) {
            return Err(Refusal::IndexAboveTotal);
        }
        Ok(())
    }

    /// Decides the refusals 5 to 11 of a batch, in their order. Of the marks, those of the kept groups stay.
    // How many groups are kept is no part of the batch, which does not know it.
    #[tactic(auto, using(crate::proofs::Accepting::accepted))]
    pub fn refuse(
        &self,
        limits: BatchLimits,
        kept: usize,
        marks: &mut [bool],
    ) -> Result<(), Refusal>
        requires { limits.groups ≤ length marks.old }
        ensures answer { result_err result ≡ refusal (batch_line limits.rows limits.groups kept self.now.rows self.now.group_indices.now self.now.ticked self.now.total) }
        ensures marks { take kept marks.new ≡ take kept marks.old }
    {
        self.refuse_early(limits, kept)?;
        if !names_all(marks, self.group_indices, kept, self.total) {
            return Err(Refusal::GroupNotNamed);
        }
        Ok(())
    }
}

/// Of a call's refusals, the one that is answered is the first by number whose condition holds.
pub fn first_by_number()
    ensures { FirstByNumber }
{}
