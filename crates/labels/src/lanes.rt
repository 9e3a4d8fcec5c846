// Sixteen dots at once: each in ascending order, with an accumulator of its own, so that every one is the stated sum.
ghost use Rattle.std.specs.Prelude.{◌≡◌, ◌+◌, ◌*◌, ◌/◌, ◌%◌, ◌≤◌, ◌<◌, length, get_or};
ghost use Rattle.std.specs.Float.{nan, binary32};
ghost use Rattle.std.specs.Float.Ieee.{add, mul};
ghost use Rattle.sums.specs.Tables.{tabulate};
ghost use Rattle.labels.specs.Panels.{dots_of, value_at, panels_of};

use sums::readings::Rows;

// acc with x times each of the sixteen values of panel from `at` on added.
fn lane16(acc: &mut [f32; 16], x: f32, panel: &[f32], at: usize)
    requires { (length acc.old ≡ 16) × (at + 16 ≤ length panel.now) }
    ensures { acc.new
        ≡ tabulate (λ j. add binary32 (get_or acc.old j nan) (mul binary32 x (get_or panel.now (at + j) nan))) 16 }
{
    for j in 0..16usize {
        acc[j] += x * panel[at + j];
    }
}

// The dots of two rows with the columns of one panel.
#[derive(Clone, Copy)]
pub struct DotsPair {
    pub first: [f32; 16],
    pub second: [f32; 16],
}

// The panel is read once for both rows.
#[tactic(auto, using(crate::proofs::Columns::parts_length))]
pub fn dots16_pair(first: &[f32], second: &[f32], panel: &[f32]) -> DotsPair
    requires { (length second.now ≡ length first.now) × (16 * length first.now ≤ length panel.now) }
    ensures { (result.first ≡ dots_of first.now panel.now)
        × (result.second ≡ dots_of second.now panel.now) }
{
    let mut a = [0.0f32; 16];
    let mut b = [0.0f32; 16];
    for i in 0..first.len() {
        lane16(&mut a, first[i], panel, 16 * i);
        lane16(&mut b, second[i], panel, 16 * i);
    }
    DotsPair {
        first: a,
        second: b,
    }
}

// Value d of centroid c, or +0.0 past the last centroid.
fn value_at(centroids: Rows<'_>, c: usize, d: usize) -> f32
    requires { d < centroids.dim }
    ensures { result ≡ value_at centroids.entry c d }
{
    if c < centroids.count {
        return centroids.row(c)[d];
    }
    0.0f32
}

// One line of a panel: value d of sixteen centroids.
#[tactic(auto, using(sums::proofs::Tables::fill_more))]
fn fill_line(line: &mut [f32], centroids: Rows<'_>, first: usize, d: usize)
    requires { (length line.old ≡ 16) × ((d < centroids.dim) × (first + 16 ≤ 4096)) }
    ensures { line.new ≡ tabulate (λ j. value_at centroids.entry (first + j) d) 16 }
{
    for (j, value) in line.iter_mut().enumerate() {
        *value = value_at(centroids, first + j, d);
    }
}

// One panel: a line for each value of a centroid, of the centroids from `first` on.
fn fill_panel(panel: &mut [f32], centroids: Rows<'_>, first: usize)
    requires { (length panel.old ≡ 16 * centroids.dim) × (first + 16 ≤ 4096) }
    ensures { panel.new ≡ tabulate (λ p. value_at centroids.entry (first + p % 16) (p / 16)) (16 * centroids.entry.dim) }
{
    for d in 0..centroids.dim {
        let at = 16 * d;
        fill_line(&mut panel[at..at + 16], centroids, first, d);
    }
}

// As many whole panels as the slice has room for.
pub fn fill_panels(centroids: Rows<'_>, count: usize, panels: &mut [f32])
    requires { (0 < centroids.dim) × ((centroids.dim ≤ 64) × ((count ≤ 4) × (length panels.old ≡ count * (16 * centroids.dim)))) }
    ensures { panels.new ≡ panels_of centroids.entry (length panels.old) }
{
    let wide = 16 * centroids.dim;
    for g in 0..count {
        let at = g * wide;
        fill_panel(&mut panels[at..at + wide], centroids, 16 * g);
    }
}
