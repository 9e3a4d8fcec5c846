// The tests of a grouping's cells: each row once, ends that rise, blanks.
ghost use Rattle.std.specs.Prelude.{◌≡◌, true, ◌≤◌, length, replicate};
ghost use Rattle.results.specs.Grouping.{all_pass, all_below, times_each, each_once, rising};

use sums::rooms;

// Every cell holds this number: of a mean's bits 0 is +0.0, and -0.0 is not.
#[tactic(auto, unfolding(crate::specs::Grouping::all_pass))]
pub fn all_are<T: PartialEq + Copy>(cells: &[T], v: T) -> bool
    ensures { result ≡ all_pass (λ x. T.eq x v) cells.now }
{
    for cell in cells {
        if *cell != v {
            return false;
        }
    }
    true
}

// How often each row is listed, up to the first that is no row.
fn count_rows(order: &[u16], seen: &mut [u16]) -> bool
    requires { (seen.old ≡ replicate (length seen.old) 0) × (length order.now ≤ 4096) }
    ensures value { result ≡ all_below (length seen.old) order.now }
    ensures seen_after { result ≡ true → seen.new ≡ times_each (length seen.old) order.now }
{
    for listed in order {
        let row = *listed as usize;
        if seen.len() <= row {
            return false;
        }
        seen[row] += 1;
    }
    true
}

// The same, counted in these cells.
fn once_in(order: &[u16], seen: &mut [u16]) -> bool
    requires { (length seen.old ≡ length order.now) × (length order.now ≤ 4096) }
    ensures { result ≡ each_once (length order.now) order.now }
{
    seen.fill(0);
    if !count_rows(order, seen) {
        return false;
    }
    all_are(seen, 1)
}

// Each row below their number is listed once.
pub fn rows_once(order: &[u16]) -> bool
    requires { length order.now ≤ 4096 }
    ensures { result ≡ each_once (length order.now) order.now }
{
    let mut seen = rooms::room::<u16, 4096>(0);
    once_in(order, &mut seen[..order.len()])
}

// Ends that rise from 0, each above the one before, and come to the number of rows.
#[tactic(auto, unfolding(crate::specs::Grouping::rising))]
pub fn rises(ends: &[u16], rows: usize) -> bool
    ensures { result ≡ rising 0 ends.now rows }
{
    let mut start = 0;
    for end in ends {
        let end = *end as usize;
        if end <= start {
            return false;
        }
        start = end;
    }
    start == rows
}
