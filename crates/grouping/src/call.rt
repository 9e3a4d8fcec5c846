// The grouping call, whole: any call is answered, with its counts or with its refusal.
ghost use Rattle.std.specs.Prelude.{◌≡◌, true, [], ◌∷◌, ◌*◌, ◌≤◌, ◌<◌, length, replicate, OnOk};
ghost use Rattle.sums.specs.Rows.{rows_from};
ghost use Rattle.sums.specs.Table.{rows_of};
ghost use Rattle.sums.specs.Sums.{zero32};
ghost use Rattle.sums.specs.Refusals.{Answer, Cleared};
ghost use Rattle.sums.specs.Refused.{number_in};
ghost use Rattle.grouping.specs.Call.{ranges_fit as ranges_fit_lem, lengths_fit as lengths_fit_lem, grouping_refusal, grouping_call, Gives};
ghost use Rattle.grouping.specs.Groups.{rule_of, Groups, grouping};
ghost use Rattle.grouping.specs.Inside.{Room, Grouped};
ghost use Rattle.kmeans.specs.Inside.{Limits};

use crate::config::GroupingConfig;
use crate::waiting::Counts;
use crate::{means, waiting};
use sums::readings::Rows;
use sums::refusals::Refusal;
use sums::{cells, rooms};

// The lengths of what a call is lent.
#[derive(Clone, Copy)]
pub struct Lent {
    pub values: usize,
    pub order: usize,
    pub ends: usize,
    pub means: usize,
    pub gathered: usize,
    pub training: usize,
}

// 1: a number is out of range.
#[tactic(auto, unfolding(crate::specs::Call::ranges_fit))]
fn ranges_fit(rows: u32, dim: u32, config: GroupingConfig) -> bool
    ensures { result ≡ ranges_fit_lem rows dim config }
{
    (0..=4096).contains(&rows)
        && (1..=64).contains(&dim)
        && (0..=4096).contains(&config.limit)
        && (1..=64).contains(&config.branching)
        && (0..=8192).contains(&config.budget)
}

// 2: a slice is not of its length.
#[tactic(auto, unfolding(crate::specs::Call::lengths_fit, sums::specs::Refusals::same_all))]
fn lengths_fit(rows: u32, dim: u32, lent: Lent) -> bool
    ensures value { result ≡ lengths_fit_lem rows dim lent.values
        (lent.order ∷ lent.ends ∷ lent.means ∷ lent.gathered ∷ lent.training ∷ []) }
    ensures fits { result ≡ true → (lent.values ≡ rows * dim) × ((lent.order ≡ rows) × ((lent.ends ≡ rows)
        × ((lent.means ≡ rows * dim) × ((lent.gathered ≡ rows * dim) × (lent.training ≡ rows * dim))))) }
{
    let count = rows as usize;
    let cells = count * dim as usize;
    lent.values == cells
        && lent.order == count
        && lent.ends == count
        && lent.means == cells
        && lent.gathered == cells
        && lent.training == cells
}

// The lowest number that refuses the call; 4: no draws, or too many. 3 is k-means' alone.
#[tactic(auto, unfolding(crate::specs::Call::grouping_refusal, crate::specs::Call::ranges_fit, sums::specs::Refusals::lowest_from))]
fn check(
    rows: u32,
    dim: u32,
    config: GroupingConfig,
    draws: usize,
    lent: Lent,
) -> Result<(), Refusal>
    ensures refused { number_in result ≡ grouping_refusal rows dim config draws lent.values
        (lent.order ∷ lent.ends ∷ lent.means ∷ lent.gathered ∷ lent.training ∷ []) }
    ensures fits { OnOk result ((Limits dim config.branching rows × ((0 < draws) × (config.budget < 65536)))
        × ((lent.values ≡ rows * dim) × ((lent.order ≡ rows) × ((lent.ends ≡ rows)
        × ((lent.means ≡ rows * dim) × ((lent.gathered ≡ rows * dim) × (lent.training ≡ rows * dim))))))) }
{
    if !ranges_fit(rows, dim, config) {
        return Err(Refusal::Range);
    }
    if !lengths_fit(rows, dim, lent) {
        return Err(Refusal::Length);
    }
    if !(1..=4096).contains(&draws) {
        return Err(Refusal::Draws);
    }
    Ok(())
}

// An acceptance gets its means; after a refusal by 6, 7 or 9 the cells that were begun are blank again.
fn finish(
    found: Result<Counts, Refusal>,
    rows: Rows<'_>,
    order: &mut [u16],
    ends: &mut [u16],
    means: &mut [f32],
) -> Result<Counts, Refusal>
    requires means_len { (rows.count ≡ length order.old) × ((length means.old ≡ length order.old * rows.dim)
        × ((length ends.old ≡ length order.old) × (length order.old ≤ 4096))) }
    requires means_value { ((answer : Answer Groups) × Grouped answer (length order.old) found order.old ends.old)
        × (means.old ≡ replicate (length means.old) zero32) }
    ensures { (answer : Answer Groups) → Grouped answer (length order.old) found order.old ends.old
        → Gives answer rows.entry.dim (rows_of rows.entry)
        (length order.old) (length ends.old) (length means.old)
        result order.new ends.new means.new }
{
    match found {
        Ok(counts) => {
            means::fill_means(rows, order, ends, counts.groups as usize, means);
            Ok(counts)
        }
        Err(refusal) => {
            order.fill(65535);
            ends.fill(65535);
            Err(refusal)
        }
    }
}

// What a call gives that none of 1 to 4 refuses; it has blank cells.
fn answer(
    rows: Rows<'_>,
    config: GroupingConfig,
    draws: &[u32],
    order: &mut [u16],
    ends: &mut [u16],
    means: &mut [f32],
    gathered: &mut [f32],
    training: &mut [f32],
) -> Result<Counts, Refusal>
    requires room { Room rows config.branching (length gathered.old) (length training.old) }
    requires ends_len { (rows.count ≡ length order.old) × ((length ends.old ≡ length order.old)
        × ((length means.old ≡ length order.old * rows.dim) × ((0 < length draws.now) × (config.budget < 65536)))) }
    requires ends_value { (ends.old ≡ replicate (length ends.old) 65535) × (means.old ≡ replicate (length means.old) zero32) }
    ensures { let table = rows_of rows.entry in
        let rule = rule_of draws.now rows.entry.dim table config.branching config.weight config.spherical in
        Gives (grouping config.mode rule config.limit config.budget) rows.entry.dim table
        (length order.old) (length ends.old) (length means.old)
        result order.new ends.new means.new }
{
    let k = config.branching as usize;
    let mut sizes = [0u16; 64];
    let mut waiting = rooms::room::<u16, 4096>(0);
    cells::count_up(order);
    let found = waiting::group_rows(
        rows,
        config,
        draws,
        order,
        ends,
        &mut sizes[..k],
        &mut waiting,
        gathered,
        training,
    );
    finish(found, rows, order, ends, means)
}

// Grouping on what a caller lends (01, 'Grouping'): row order, group ends and means, or the refusal's number and blank cells; `gathered`
// and `training` end all zero.
pub fn hierarchical_clustering(
    rows: u32,
    dim: u32,
    config: GroupingConfig,
    draws: &[u32],
    values: &[f32],
    order: &mut [u16],
    ends: &mut [u16],
    means: &mut [f32],
    gathered: &mut [f32],
    training: &mut [f32],
) -> Result<Counts, Refusal>
    ensures fact { let lent = length order.old ∷ length ends.old ∷ length means.old
        ∷ length gathered.old ∷ length training.old ∷ [] in
        Gives (grouping_call rows dim config draws.now values.now lent) dim (rows_from dim rows values.now)
        (length order.old) (length ends.old) (length means.old)
        result order.new ends.new means.new }
    ensures cleared { Cleared zero32 gathered.new × Cleared zero32 training.new }
{
    order.fill(65535);
    ends.fill(65535);
    means.fill(0.0);
    let lent = Lent {
        values: values.len(),
        order: order.len(),
        ends: ends.len(),
        means: means.len(),
        gathered: gathered.len(),
        training: training.len(),
    };
    let given = match check(rows, dim, config, draws.len(), lent) {
        Ok(()) => {
            let table = Rows {
                values,
                dim: dim as usize,
                count: rows as usize,
            };
            answer(table, config, draws, order, ends, means, gathered, training)
        }
        Err(refusal) => Err(refusal),
    };
    gathered.fill(0.0);
    training.fill(0.0);
    given
}
