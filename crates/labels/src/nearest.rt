// The nearest centroid of a row, and of many rows (the source's assign_points_for_update and compute_chunk_assignments_only).
ghost use Rattle.std.specs.Prelude.{◌≡◌, ◌&&◌, ◌==◌, [], ◌∷◌, ◌+◌, ◌-◌, ◌*◌, ◌/◌, ◌≤◌, ◌<◌, eqb, length, get_or, set};
ghost use Rattle.sums.specs.Table.{rows_of};
ghost use Rattle.sums.specs.Tables.{tabulate};
ghost use Rattle.labels.specs.Label.{score_from, better as better_lem, placement, nearests};
ghost use Rattle.labels.specs.Label.{label_in as label_in_lem, distance_in as distance_in_lem, unplaced_of};
ghost use Rattle.labels.specs.Inside.{norms_of, scanned, by_panels, placed_by, Assigned, Assignable};

use crate::lanes;
use sums::readings::Rows;
use sums::rooms;

// A cluster, and the score of a row against it.
#[derive(Clone, Copy)]
pub struct Nearest {
    pub label: u16,
    pub distance: f32,
}

// Of the rows so far: whether every label is the one that stood there before, and how many rows are unplaced.
#[derive(Clone, Copy, Debug, PartialEq, Eq)]
pub struct Tally {
    pub same: bool,
    pub unplaced: usize,
}

// What is found for two rows.
#[derive(Drop)]
struct NearestPair {
    first: Nearest,
    second: Nearest,
}

fn score(rownorm: f32, norm: f32, dot: f32) -> f32
    ensures { result ≡ score_from rownorm norm dot }
{
    let raw = (rownorm + norm) - (2.0f32 * dot);
    // Kept: `max` would make 0 of a NaN, which `score_from` keeps.
    if raw < 0.0f32 {
        return 0.0f32;
    }
    raw
}

// best, or the cluster where its score is below.
#[tactic(auto, unfolding(crate::specs::Label::better))]
fn better(best: Nearest, cluster: u16, s: f32) -> Nearest
    ensures { result ≡ better_lem cluster s best }
{
    if s < best.distance {
        return Nearest {
            label: cluster,
            distance: s,
        };
    }
    best
}

// Two rows' searches side by side, neither waiting for the other.
#[tactic(auto, using(crate::proofs::Searches::from_more), unfolding(crate::specs::Label::nearest_from))]
fn scan16_pair(
    best: NearestPair,
    rownorm: f32,
    secondnorm: f32,
    dots: lanes::DotsPair,
    norms: &[f32],
    from: usize,
    count: usize,
) -> NearestPair
    requires { (count ≤ 16) × ((from + count ≤ length norms.now) × (length norms.now ≤ 65536)) }
    ensures first_value { result.first ≡ scanned rownorm norms.now dots.first from count best.first }
    ensures second_value { result.second ≡ scanned secondnorm norms.now dots.second from count best.second }
{
    let first = dots.first;
    let second = dots.second;
    let mut a = best.first;
    let mut b = best.second;
    for j in 0..count {
        let c = from + j;
        a = better(a, c as u16, score(rownorm, norms[c], first[j]));
        b = better(b, c as u16, score(secondnorm, norms[c], second[j]));
    }
    NearestPair {
        first: a,
        second: b,
    }
}

// The nearest of each of two rows, a panel being read once for both; `rownorm` and `secondnorm` are their norms.
fn find_nearest_pair(
    row: &[f32],
    second: &[f32],
    rownorm: f32,
    secondnorm: f32,
    panels: &[f32],
    norms: &[f32],
) -> NearestPair
    requires second_len { (length second.now ≡ length row.now) × ((length row.now ≤ 64) × (length norms.now ≤ 64)) }
    requires row_in_bounds { (length norms.now + 15) / 16 * (16 * length row.now) ≤ length panels.now }
    ensures first_value { result.first ≡ by_panels row.now rownorm panels.now norms.now }
    ensures second_value { result.second ≡ by_panels second.now secondnorm panels.now norms.now }
{
    let k = norms.len();
    let wide = 16 * row.len();
    let start = Nearest {
        label: 0,
        distance: f32::INFINITY,
    };
    let mut best = NearestPair {
        first: start,
        second: start,
    };
    for g in 0..(k + 15) / 16 {
        let at = g * wide;
        let from = 16 * g;
        let count = (k - from).min(16);
        let dots = lanes::dots16_pair(row, second, &panels[at..at + wide]);
        best = scan16_pair(best, rownorm, secondnorm, dots, norms, from, count);
    }
    best
}

// Each row's norm.
pub fn compute_norms(rows: Rows<'_>, norms: &mut [f32])
    requires { length norms.old ≡ rows.count }
    ensures { norms.new ≡ norms_of (rows_of rows.entry) }
{
    for (i, norm) in norms.iter_mut().enumerate() {
        *norm = sums::math::norm(rows.row(i));
    }
}

// The answer of a search that has ended.
fn placement_of(best: Nearest) -> Option<Nearest>
    ensures { result ≡ placement best }
{
    if best.distance < f32::INFINITY {
        Some(best)
    } else {
        None
    }
}

fn label_in(found: Option<Nearest>) -> u16
    ensures { result ≡ label_in_lem found }
{
    match found {
        Some(best) => best.label,
        None => 0,
    }
}

fn distance_in(found: Option<Nearest>) -> f32
    ensures { result ≡ distance_in_lem found }
{
    match found {
        Some(best) => best.distance,
        None => f32::INFINITY,
    }
}

// 1 for an unplaced row, and 0 for any other.
#[tactic(auto, unfolding(crate::specs::Label::unplaced_of))]
fn unplaced_in(found: Option<Nearest>) -> usize
    ensures { (result ≡ unplaced_of (found ∷ [])) × (result ≤ 1) }
{
    match found {
        Some(_) => 0,
        None => 1,
    }
}

// Row i's answer put to its cells, and to the tally of the rows before it.
fn put(
    labels: &mut [u16],
    distances: &mut [f32],
    i: usize,
    found: Option<Nearest>,
    tally: Tally,
) -> Tally
    requires { (i < length labels.old) × ((i < length distances.old) × (tally.unplaced ≤ i)) }
    ensures labels_after { (labels.new ≡ set labels.old i (label_in_lem found))
        × (distances.new ≡ set distances.old i (distance_in_lem found)) }
    ensures same_value { (result.same ≡ (tally.same && eqb (get_or labels.old i 0) (label_in_lem found)))
        × ((result.unplaced ≡ tally.unplaced + unplaced_of (found ∷ [])) × (result.unplaced ≤ i + 1)) }
{
    let label = label_in(found);
    let same = tally.same && labels[i] == label;
    labels[i] = label;
    distances[i] = distance_in(found);
    Tally {
        same,
        unplaced: tally.unplaced + unplaced_in(found),
    }
}

// Labels and distances of the rows, the centroids being laid out in panels. Two rows go at a time, and an odd last one with itself.
#[tactic(auto, using(crate::proofs::Columns::row_long))]
fn assign_by_panels(
    rows: Rows<'_>,
    rownorms: &[f32],
    panels: &[f32],
    norms: &[f32],
    labels: &mut [u16],
    distances: &mut [f32],
) -> Tally
    requires labels_len { (length labels.old ≡ rows.count)
        × ((length distances.old ≡ rows.count) × (length rownorms.now ≡ rows.count)) }
    requires dim_bound { (rows.dim ≤ 64) × ((length norms.now ≤ 64) × ((length norms.now + 15) / 16 * (16 * rows.dim) ≤ length panels.now)) }
    ensures { let found = placed_by rows.entry rownorms.now panels.now norms.now in
        Assigned (tabulate found (length labels.old)) labels.old labels.new distances.new result }
{
    let mut tally = Tally {
        same: true,
        unplaced: 0,
    };
    for pair in 0..labels.len() / 2 {
        let i = 2 * pair;
        let j = i + 1;
        let row = rows.row(i);
        let second = rows.row(j);
        let found = find_nearest_pair(row, second, rownorms[i], rownorms[j], panels, norms);
        tally = put(labels, distances, i, placement_of(found.first), tally);
        tally = put(labels, distances, j, placement_of(found.second), tally);
    }
    if labels.len() % 2 == 1 {
        let i = labels.len() - 1;
        let row = rows.row(i);
        let found = find_nearest_pair(row, row, rownorms[i], rownorms[i], panels, norms);
        return put(labels, distances, i, placement_of(found.first), tally);
    }
    tally
}

// Labels and distances of the rows, with room for N floats of the centroids' panels.
#[tactic(auto, using(crate::proofs::Searches::norms_length))]
fn assign_with<const N: usize>(
    rows: Rows<'_>,
    rownorms: &[f32],
    centroids: Rows<'_>,
    labels: &mut [u16],
    distances: &mut [f32],
) -> Tally
    requires assignable { Assignable rows centroids rownorms.now (length labels.old) (length distances.old) }
    requires panels_fit { ((centroids.count + 15) / 16 * (16 * rows.dim) ≤ N) × (N ≤ 4096) }
    ensures { Assigned (nearests (rows_of centroids.entry) (rows_of rows.entry)) labels.old labels.new distances.new result }
{
    let k = centroids.count;
    let count = (k + 15) / 16;
    let cells = count * (16 * rows.dim);
    let mut panels = rooms::room::<f32, N>(0.0);
    lanes::fill_panels(centroids, count, &mut panels[..cells]);
    let mut lengths = [0.0f32; 64];
    compute_norms(centroids, &mut lengths[..k]);
    assign_by_panels(
        rows,
        rownorms,
        &panels[..cells],
        &lengths[..k],
        labels,
        distances,
    )
}

// Labels and distances of the rows, and their tally. Few and short centroids get little room, since the room is cleared in every call.
pub fn assign_rows(
    rows: Rows<'_>,
    rownorms: &[f32],
    centroids: Rows<'_>,
    labels: &mut [u16],
    distances: &mut [f32],
) -> Tally
    requires { Assignable rows centroids rownorms.now (length labels.old) (length distances.old) }
    ensures { Assigned (nearests (rows_of centroids.entry) (rows_of rows.entry)) labels.old labels.new distances.new result }
{
    let cells = (centroids.count + 15) / 16 * (16 * rows.dim);
    if cells <= 512 {
        assign_with::<512>(rows, rownorms, centroids, labels, distances)
    } else {
        assign_with::<4096>(rows, rownorms, centroids, labels, distances)
    }
}
