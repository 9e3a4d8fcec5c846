// Sums in stated order: from +0.0, index ascending, each product rounded before it is added (01, 'Sums in stated order').
ghost use Rattle.std.specs.Prelude.{◌≡◌, length};
ghost use Rattle.sums.specs.Sums.{norm_of, apart_of, spread_of, add_row as add_row_lem};

// The norm of a row.
#[tactic(auto, unfolding(crate::specs::Sums::sum_from, crate::specs::Sums::norm_of))]
pub fn norm(v: &[f32]) -> f32
    ensures { result ≡ norm_of v.now }
{
    let mut sum = 0.0f32;
    for x in v {
        sum += x * x;
    }
    sum
}

// The squared distance of two rows.
#[tactic(auto, unfolding(crate::specs::Sums::sum_from, crate::specs::Sums::apart_of))]
pub fn l2_distance_sqr(a: &[f32], b: &[f32]) -> f32
    requires { length a.now ≡ length b.now }
    ensures { result ≡ apart_of a.now b.now }
{
    let mut sum = 0.0f32;
    for (x, y) in a.iter().zip(b) {
        let gap = x - y;
        sum += gap * gap;
    }
    sum
}

// One row's share of the objective: widened after the subtraction, not before.
#[tactic(auto, unfolding(crate::specs::Sums::sum_from, crate::specs::Sums::spread_of))]
pub fn spread(point: &[f32], centroid: &[f32]) -> f64
    requires { length point.now ≡ length centroid.now }
    ensures { result ≡ spread_of point.now centroid.now }
{
    let mut sum = 0.0f64;
    for (x, y) in point.iter().zip(centroid) {
        let gap = std::num::f32_to_f64_with_nan(x - y);
        sum += gap * gap;
    }
    sum
}

// A row added to sums, value by value.
pub fn add_row(sums: &mut [f32], row: &[f32])
    requires { length sums.old ≡ length row.now }
    ensures { sums.new ≡ add_row_lem sums.old row.now }
{
    for (i, x) in row.iter().enumerate() {
        sums[i] += x;
    }
}
