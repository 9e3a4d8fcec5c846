// How far the closure reaches, and what is within it.
ghost use Rattle.std.specs.Prelude.{◌≡◌, ◌≤◌, length, replicate};
ghost use Rattle.sums.specs.Ordering.{keep};
ghost use Rattle.sums.specs.Cells.{Below};
ghost use Rattle.sums.specs.Refusals.{padded};
ghost use Rattle.closure.specs.Closure.{in_reach, reach_of};

// What decides how far the closure reaches: made once a call, and passed by value.
#[derive(Clone, Copy)]
pub struct Reach {
    pub epsilon: f32,
    pub factor: f32,
    pub threshold: f32,
}

impl Reach {
    // The factor is one and epsilon, the threshold the closest distance times the factor twice.
    pub fn new(epsilon: f32, closest: f32) -> Reach
        ensures { result ≡ reach_of epsilon closest }
    {
        let factor = 1.0f32 + epsilon;
        let threshold = (closest * factor) * factor;
        Reach {
            epsilon,
            factor,
            threshold,
        }
    }
}

// Lists those at or below the threshold in front of `cells`, and says how many.
pub fn select(reach: Reach, distances: &[f32], at: &[u16], cells: &mut [u16]) -> usize
    requires at_in_bounds { length at.now ≤ length cells.old }
    requires below { Below (length distances.now) at.now }
    requires cells_value { cells.old ≡ replicate (length cells.old) 65535 }
    ensures cells_after { cells.new ≡ padded 65535 (length cells.old) (keep (in_reach reach distances.now) at.now) }
    ensures value { result ≡ length (keep (in_reach reach distances.now) at.now) }
{
    let mut n = 0usize;
    for &p in at {
        if distances[usize::from(p)] <= reach.threshold {
            cells[n] = p;
            n += 1;
        }
    }
    n
}
