// One stored case of each operation: the call is made again, and its answer held against the stored one.
ghost use Rattle.std.specs.Prelude.{◌≡◌, ◌&&◌, map, ◌+◌, ◌*◌, ◌/◌, ◌%◌, ◌≤◌, ◌<◌, eqb, length};
ghost use Rattle.std.specs.Float.{binary32, binary64};
ghost use Rattle.std.specs.Float.Ieee.{to_bits};
ghost use Rattle.sums.specs.Refusals.{same_all};
ghost use Rattle.words.specs.Bytes.{u32_at, words_from};
ghost use Rattle.batch.specs.Batch.{listing_of};
ghost use Rattle.replay.specs.Replay.{label_agrees as label_agrees_lem, closure_agrees as closure_agrees_lem};
ghost use Rattle.replay.specs.Replay.{kmeans_agrees as kmeans_agrees_lem, kmeans_agrees_of};

use crate::head::Head;
use crate::same;
use labels::mode::Mode;
use sums::bits;

fn bytes_agree(number: u32, res: &[u8], head: Head<'_>, stored: &[u8]) -> bool
    ensures { result ≡ (eqb number (u32_at head.entry.bytes.now 4) && same_all res.now stored.now) }
{
    number == head.word(4) && same::bytes(res, stored)
}

// A stored case of a label.
pub fn label_agrees(
    head: Head<'_>,
    row: &[u8],
    centroids: &[u8],
    stored: &[u8],
    res: &mut [u8],
) -> bool
    requires { length res.old ≡ length stored.now }
    ensures { result ≡ label_agrees_lem head.entry.bytes.now row.now centroids.now stored.now }
{
    let dim = head.word(24);
    let k = head.word(28);
    let number = exports::bytes::families_label(Mode::Strict, dim, k, row, centroids, res);
    bytes_agree(number, res, head, stored)
}

// A stored case of closure.
pub fn closure_agrees(
    head: Head<'_>,
    vector: &[u8],
    centroids: &[u8],
    stored: &[u8],
    res: &mut [u8],
) -> bool
    requires { length res.old ≡ length stored.now }
    ensures { result ≡ closure_agrees_lem head.entry.bytes.now vector.now centroids.now stored.now }
{
    let dim = head.word(24);
    let count = head.word(28);
    let replicas = (head.word(32) % 65536) as u16;
    let epsilon = bits::float_of(head.word(36));
    let number = exports::bytes::families_closure(
        dim, count, replicas, epsilon, vector, centroids, res,
    );
    bytes_agree(number, res, head, stored)
}

// Word 14 counts least.
fn stored_objective(head: Head<'_>) -> u64
    ensures { result ≡ u32_at head.entry.bytes.now 56 + 4294967296 * u32_at head.entry.bytes.now 60 }
{
    let low = u64::from(head.word(56));
    let high = u64::from(head.word(60));
    low + 4294967296 * high
}

// All that k-means gave, against what is stored.
fn kmeans_told(
    number: u32,
    restart: u32,
    objective: f64,
    l: &[u16],
    c: &[f32],
    head: Head<'_>,
    labels: &[u8],
    centroids: &[u8],
) -> bool
    requires { (length labels.now ≡ length l.now * 4) × (length centroids.now ≡ length c.now * 4) }
    ensures { result ≡ (eqb number (u32_at head.entry.bytes.now 4) && eqb restart (u32_at head.entry.bytes.now 52)
        && eqb (to_bits binary64 objective) (u32_at head.entry.bytes.now 56 + 4294967296 * u32_at head.entry.bytes.now 60)
        && same_all l.now (words_from (length l.now) labels.now)
        && same_all (map (to_bits binary32) c.now) (words_from (length c.now) centroids.now)) }
{
    number == head.word(4)
        && restart == head.word(52)
        && bits::double_bits_of(objective) == stored_objective(head)
        && same::words(l, labels)
        && same::words(c, centroids)
}

// The case with room for what is read and for what k-means is lent.
fn kmeans_inside(
    head: Head<'_>,
    draws: &[u8],
    values: &[u8],
    labels: &[u8],
    centroids: &[u8],
    d: &mut [u32],
    v: &mut [f32],
    l: &mut [u16],
    c: &mut [f32],
    training: &mut [f32],
) -> bool
    requires draws_len { (length draws.now ≡ length d.old * 4) × (length values.now ≡ length v.old * 4) }
    requires labels_len { (length labels.now ≡ length l.old * 4) × ((length centroids.now ≡ length c.old * 4)
        × (length training.old ≡ length v.old)) }
    ensures { result ≡ kmeans_agrees_of (length d.old) (length v.old) (length l.old) (length c.old)
        head.entry.bytes.now draws.now values.now labels.now centroids.now }
{
    words::read_all(draws, d);
    words::read_all(values, v);
    let mut objective = 0.0f64;
    let mut restart = 0u32;
    let mut unplaced = 0u32;
    let number = exports::slices::families_kmeans(
        Mode::Strict,
        head.word(24),
        head.word(28),
        head.word(32),
        head.word(36),
        head.word(40),
        head.word(44),
        head.word(48),
        0,
        d,
        v,
        l,
        c,
        &mut objective,
        &mut restart,
        &mut unplaced,
        training,
    );
    kmeans_told(number, restart, objective, l, c, head, labels, centroids)
}

// Whether each part is a whole number of words.
fn all_whole(draws: usize, values: usize, labels: usize, centroids: usize) -> bool
    ensures { result ≡ (eqb (draws % 4) 0 && eqb (values % 4) 0 && eqb (labels % 4) 0 && eqb (centroids % 4) 0) }
{
    draws % 4 == 0 && values % 4 == 0 && labels % 4 == 0 && centroids % 4 == 0
}

// A stored case of k-means: it runs and gives what is stored.
#[tactic(auto, using(crate::proofs::Agreeing::room))]
pub fn kmeans_agrees(
    head: Head<'_>,
    draws: &[u8],
    values: &[u8],
    labels: &[u8],
    centroids: &[u8],
) -> bool
    requires draws_len_bound { (length draws.now ≤ 320) × (length values.now ≤ 320) }
    requires labels_len_bound { (length labels.now ≤ 320) × (length centroids.now ≤ 320) }
    ensures { result ≡ kmeans_agrees_lem head.entry.bytes.now draws.now values.now labels.now centroids.now }
{
    if !all_whole(draws.len(), values.len(), labels.len(), centroids.len()) {
        return false;
    }
    let n = labels.len() / 4;
    let many = values.len() / 4;
    let drawn = draws.len() / 4;
    let wide = centroids.len() / 4;
    let mut d = [0u32; 80];
    let mut v = [0.0f32; 80];
    let mut l = [0u16; 80];
    let mut c = [0.0f32; 80];
    let mut training = [0.0f32; 80];
    kmeans_inside(
        head,
        draws,
        values,
        labels,
        centroids,
        &mut d[..drawn],
        &mut v[..many],
        &mut l[..n],
        &mut c[..wide],
        &mut training[..many],
    )
}

// The listing tells its length, also where the room is shorter.
pub fn grouping_agrees(file: &[u8], stored: &[u8], res: &mut [u8]) -> bool
    requires { length res.old ≡ length stored.now }
    ensures { result ≡ same_all (listing_of file.now) stored.now }
{
    let n = batch::list_batch(file, res);
    if n != stored.len() {
        return false;
    }
    same::bytes(res, stored)
}
