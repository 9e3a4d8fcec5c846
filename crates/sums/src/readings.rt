// Rows of readings, or centroids, that stand one after the other in a lent slice.
ghost use Rattle.std.specs.Prelude.{◌≡◌, ◌*◌, ◌<◌, length};
ghost use Rattle.sums.specs.Rows.{row_at};

// `count` rows of `dim` values each.
#[derive(Clone, Copy)]
pub struct Rows<'a> {
    pub values: &'a [f32],
    pub dim: usize,
    pub count: usize,
    ghost whole: { length values.now ≡ count * dim },
}

impl<'a> Rows<'a> {
    // These rows.
    pub fn new(values: &'a [f32], dim: usize, count: usize) -> Rows<'a>
        requires { length values.now ≡ count * dim }
        ensures { (result.values.now ≡ values.now) × ((result.dim ≡ dim) × (result.count ≡ count)) }
    {
        Rows { values, dim, count }
    }

    // One row.
    pub fn row(self, i: usize) -> &'a [f32]
        requires { i < self.count }
        ensures { result.now ≡ row_at self.entry.values.now self.entry.dim i }
    {
        let at = i * self.dim;
        &self.values[at..at + self.dim]
    }
}
