// The waiting groups (the source's HierarchicalClustering::cluster). The row order holds the finished groups first, as listed, and then
// the waiting ones, the next to be taken first; `waiting` is the stack of their ends.
ghost use Rattle.std.specs.Prelude.{◌≡◌, ◌++◌, ◌+◌, ◌≤◌, ◌<◌, length, take, replicate};
ghost use Rattle.sums.specs.Cells.{Below};
ghost use Rattle.sums.specs.Table.{rows_of};
ghost use Rattle.sums.specs.Tables.{up_to};
ghost use Rattle.grouping.specs.Groups.{rule_of, grouping};
ghost use Rattle.grouping.specs.PartsInside.{total};
ghost use Rattle.grouping.specs.Inside.{Room, Taken, pushes, Grouped};

use crate::config::GroupingConfig;
use crate::split;
use sums::cursor::Draws;
use sums::readings::Rows;
use sums::refusals::Refusal;

// What a grouping comes to: the numbers of groups and of splits, and the unplaced rows summed over the splits.
#[derive(Clone, Copy, Debug, PartialEq, Eq)]
pub struct Counts {
    pub groups: u32,
    pub splits: u32,
    pub unplaced: u32,
}

// The parts that have rows are put to wait in cluster order, the first ending at `end`. How many wait then.
fn push(waiting: &mut [u16], sizes: &[u16], top: usize, end: usize) -> usize
    requires { (top + length (pushes end sizes.now) ≤ length waiting.old) × ((total sizes.now ≤ end) × (end < 65536)) }
    ensures { (result ≡ top + length (pushes end sizes.now))
        × (take result waiting.new ≡ take top waiting.old ++ pushes end sizes.now) }
{
    let mut t = top;
    let mut e = end;
    for &size in sizes {
        if 0 < size {
            waiting[t] = e as u16;
            t += 1;
            e -= usize::from(size);
        }
    }
    t
}

// An oversize group is refused by 6 where it has fewer rows than there are to be parts, by 7 where the budget is spent; else it is split, or
// refused by 9 (02 (iii)).
fn split_or_refuse(
    rows: Rows<'_>,
    config: GroupingConfig,
    splits: u32,
    draws: &mut Draws<'_>,
    part: &mut [u16],
    sizes: &mut [u16],
    gathered: &mut [f32],
    training: &mut [f32],
) -> Result<u32, Refusal>
    requires room { Room rows (length sizes.old) (length gathered.old) (length training.old) }
    requires part_len_bound { (length part.old ≤ rows.count) × Below rows.count part.old }
    ensures { let rule = rule_of draws.old.list.now rows.entry.dim (rows_of rows.entry) (length sizes.old)
        config.weight config.spherical in
        Taken config.mode rule config.budget splits part.old draws.old draws.new result part.new sizes.new }
{
    if part.len() < sizes.len() {
        return Err(Refusal::Indivisible);
    }
    if splits == config.budget {
        return Err(Refusal::Budget);
    }
    let cut = split::split_cluster(rows, config, draws, part, sizes, gathered, training);
    cut.done?;
    Ok(cut.unplaced)
}

// All rows wait as one group. The last waiting group is taken: listed where it is small enough, and split where it is not.
pub fn group_rows(
    rows: Rows<'_>,
    config: GroupingConfig,
    draws: &[u32],
    order: &mut [u16],
    ends: &mut [u16],
    sizes: &mut [u16],
    waiting: &mut [u16],
    gathered: &mut [f32],
    training: &mut [f32],
) -> Result<Counts, Refusal>
    requires room { Room rows (length sizes.old) (length gathered.old) (length training.old) }
    requires ends_len { (rows.count ≡ length order.old) × ((length ends.old ≡ length order.old)
        × ((length order.old ≤ length waiting.old) × (0 < length waiting.old))) }
    requires order_value { (order.old ≡ up_to (length order.old)) × ((ends.old ≡ replicate (length ends.old) 65535)
        × ((0 < length draws.now) × (config.budget < 65536))) }
    ensures { let rule = rule_of draws.now rows.entry.dim (rows_of rows.entry) (length sizes.old)
        config.weight config.spherical in
        Grouped (grouping config.mode rule config.limit config.budget) (length order.old) result order.new ends.new }
{
    waiting[0] = order.len() as u16;
    let mut top = order.len().min(1);
    let mut groups = 0u32;
    let mut splits = 0u32;
    let mut unplaced = 0u32;
    let mut start = 0usize;
    let mut drawn = Draws::new(draws);
    // Kept: what waits is a list of work that grows and shrinks, with no index to count, and without a heap its room has its height beside it.
    while 0 < top {
        let end = usize::from(waiting[top - 1]);
        if end - start <= config.limit as usize {
            ends[groups as usize] = end as u16;
            groups += 1;
            top -= 1;
            start = end;
        } else {
            let lost = split_or_refuse(
                rows,
                config,
                splits,
                &mut drawn,
                &mut order[start..end],
                sizes,
                gathered,
                training,
            )?;
            top = push(waiting, sizes, top - 1, end);
            splits += 1;
            unplaced += lost;
        }
    }
    Ok(Counts {
        groups,
        splits,
        unplaced,
    })
}
