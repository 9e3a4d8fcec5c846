// Rows gathered by label (the second half of the source's split_cluster).
ghost use Rattle.std.specs.Prelude.{◌≡◌, ◌++◌, ◌<◌, ◌≤◌, length, drop};
ghost use Rattle.sums.specs.Cells.{Below};
ghost use Rattle.grouping.specs.Parts.{having, gathered};
ghost use Rattle.grouping.specs.PartsInside.{Laid};

// The rows whose label is `c`, in their order, to the front of `dst`; how many.
fn rows_with_label(dst: &mut [u16], rows: &[u16], labels: &[u16], c: usize) -> usize
    requires { (length rows.now ≡ length labels.now) × (length (having c rows.now labels.now) ≤ length dst.old) }
    ensures { let found = having c rows.now labels.now in
        (result ≡ length found) × (dst.new ≡ found ++ drop result dst.old) }
{
    let mut n = 0usize;
    for (i, &row) in rows.iter().enumerate() {
        if usize::from(labels[i]) == c {
            dst[n] = row;
            n += 1;
        }
    }
    n
}

// The rows of each label, in their order, the last label's first; how many each label has.
pub fn gather(part: &mut [u16], rows: &[u16], labels: &[u16], sizes: &mut [u16])
    requires { (length rows.now ≡ length labels.now) × ((length part.old ≡ length rows.now)
        × ((length rows.now < 65536) × Below (length sizes.old) labels.now)) }
    ensures { Laid (gathered (length sizes.old) rows.now labels.now)
        part.new sizes.new }
{
    let mut at = 0usize;
    for c in (0..sizes.len()).rev() {
        let n = rows_with_label(&mut part[at..], rows, labels, c);
        sizes[c] = n as u16;
        at += n;
    }
}
