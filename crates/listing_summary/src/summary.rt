// Counting the lines HEAD of a listing.
ghost use Rattle.std.specs.Prelude.{◌≡◌, ◌+◌, ◌^◌, ◌+ℤ◌, ◌<◌, ◌≤◌, [], ◌∷◌, cond, length, All};
ghost use Rattle.std.specs.Int.{int_max};
ghost use Rattle.std.specs.List.{fold};
ghost use Rattle.step_problem.specs.{IsHead, IsMagnitudeAtMost, cell_limit};
ghost use Rattle.model_types.specs.{is_active};
ghost use Rattle.listing_summary.specs.{with_head_line, with_step, nothing, Fits, printed_bounds, width, most_heads};

use model_types::FlowModel;
use step_problem::Bound;

/// The summary of a listing: the numbers of its lines STEP and HEAD, the greatest upper less lower head of a line HEAD,
/// and the sums of their lower and of their upper heads, in units of 10^-9.
#[derive(Clone, Copy)]
pub struct Summary {
    pub steps: u64,
    pub heads: u64,
    pub widest: i128,
    pub low_sum: i128,
    pub high_sum: i128,
}

fn plus(sum: i128, head: i64) -> i128
    requires sum { IsMagnitudeAtMost sum (2 ^ 101) }
    requires head { IsHead head }
    ensures { result ≡ sum +ℤ head }
{
    sum + i128::from(head)
}

fn width(bound: Bound) -> i128
    requires low { IsHead bound.low }
    requires high { IsHead bound.high }
    ensures { result ≡ width bound }
{
    i128::from(bound.high) - i128::from(bound.low)
}

fn max_of(a: i128, b: i128) -> i128
    ensures { result ≡ int_max a b }
{
    a.max(b)
}

impl Summary {
    pub(crate) fn nothing() -> Summary
        ensures is { result ≡ nothing }
        ensures fits { Fits result }
    {
        Summary {
            steps: 0,
            heads: 0,
            widest: 0,
            low_sum: 0,
            high_sum: 0,
        }
    }

    #[tactic(auto, using(crate::proofs::Counts::low_room, crate::proofs::Counts::high_room))]
    fn add(&mut self, bound: Bound)
        requires room { self.old.heads < most_heads }
        requires fits { Fits self.old }
        requires low { IsHead bound.low }
        requires high { IsHead bound.high }
        ensures { self.new ≡ with_head_line self.old bound }
    {
        self.heads += 1;
        self.widest = max_of(width(bound), self.widest);
        self.low_sum = plus(self.low_sum, bound.low);
        self.high_sum = plus(self.high_sum, bound.high);
    }

    fn count(&mut self, bound: Bound)
        requires room { self.old.heads < most_heads }
        requires fits { Fits self.old }
        requires low { IsHead bound.low }
        requires high { IsHead bound.high }
        ensures is { self.new ≡ with_head_line self.old bound }
        ensures fits { Fits self.new }
    {
        self.add(bound);
    }

    // Counts a cell, if it has a line.
    fn count_cell(&mut self, model: &FlowModel, cell: u32, bound: Bound)
        requires room { self.old.heads < most_heads }
        requires fits { Fits self.old }
        requires low { IsHead bound.low }
        requires high { IsHead bound.high }
        ensures is { self.new ≡ fold with_head_line self.old (cond (is_active model.now cell) (bound ∷ []) []) }
        ensures fits { Fits self.new }
        ensures few { self.new.heads ≤ self.old.heads + 1 }
    {
        if model.is_active(cell) {
            self.count(bound);
        }
    }

    fn count_heads(&mut self, model: &FlowModel, heads: &[Bound])
        requires few { length heads.now ≤ cell_limit }
        requires room { self.old.heads + length heads.now ≤ most_heads }
        requires fits { Fits self.old }
        requires range { All (λ b. IsHead b.low × IsHead b.high) heads.now }
        ensures is { self.new ≡ fold with_head_line self.old (printed_bounds model.now 0 heads.now) }
        ensures fits { Fits self.new }
        ensures few { self.new.heads ≤ self.old.heads + length heads.now }
    {
        for cell in 0..heads.len() {
            self.count_cell(model, cell as u32, heads[cell]);
        }
    }

    /// Counts a step with these heads of all cells.
    pub(crate) fn count_step(&mut self, model: &FlowModel, heads: &[Bound])
        requires steps { self.old.steps < 100000 }
        requires few { length heads.now ≤ cell_limit }
        requires room { self.old.heads + length heads.now ≤ most_heads }
        requires fits { Fits self.old }
        requires range { All (λ b. IsHead b.low × IsHead b.high) heads.now }
        ensures is { self.new ≡ with_step model.now self.old heads.now }
        ensures steps { self.new.steps ≡ self.old.steps + 1 }
        ensures fits { Fits self.new }
        ensures few { self.new.heads ≤ self.old.heads + length heads.now }
    {
        let steps = self.steps;
        self.count_heads(model, heads);
        self.steps = steps + 1;
    }
}
