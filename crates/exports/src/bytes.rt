// What the bench host calls on bytes: numbers and little-endian bytes in, a number and bytes out.
ghost use Rattle.std.specs.Prelude.{◌≡◌, ◌+◌, ◌*◌, ◌≤◌, ◌<◌, length, replicate, OnOk};
ghost use mathlib.Core.List.{◌++◌, flat_map};
ghost use Rattle.sums.specs.Refused.{number_in};
ghost use Rattle.words.specs.Bytes.{floats_from, bytes16};
ghost use Rattle.closure.specs.Call.{closure_call};
ghost use Rattle.batch.specs.Batch.{listing_of, put_front};
ghost use Rattle.exports.specs.Exports.{Gave, label_refusal, placement_of, label_by, label_call};
ghost use Rattle.exports.specs.Exports.{closure_refusal, closure_bytes_call, closure_written};

use crate::codes::code;
use labels::call;
use labels::mode::Mode;
use sums::refusals::Refusal;
use words::ToBytes;

// What a result byte holds where there is no result.
const BLANK: u8 = 255;

// No result, as every call starts.
fn blank(res: &mut [u8])
    ensures { res.new ≡ replicate (length res.old) 255 }
{
    res.fill(BLANK);
}

// Refusals 1 and 2 of closure, lengths being counts of bytes.
#[tactic(auto, unfolding(crate::specs::Exports::closure_refusal, sums::specs::Refusals::lowest_from))]
fn check_closure(
    dim: u32,
    count: u32,
    vector: usize,
    centroids: usize,
    res: usize,
) -> Result<(), Refusal>
    ensures refused { number_in result ≡ closure_refusal dim count vector centroids res }
    ensures fits { OnOk result (((dim ≤ 64) × (count ≤ 64)) × ((vector ≡ dim * 4) × ((centroids ≡ count * dim * 4) × (res ≡ count * 2 + 2)))) }
{
    if !((1..=64).contains(&dim) && (0..=64).contains(&count)) {
        return Err(Refusal::Range);
    }
    let width = dim as usize;
    let k = count as usize;
    if vector == width * 4 && centroids == k * width * 4 && res == k * 2 + 2 {
        Ok(())
    } else {
        Err(Refusal::Length)
    }
}

// The cells and then how many, two bytes each.
fn put_cells(cells: &[u16], n: u16, res: &mut [u8])
    requires { length res.old ≡ length cells.now * 2 + 2 }
    ensures { res.new ≡ flat_map bytes16 cells.now ++ bytes16 n }
{
    let at = cells.len() * 2;
    words::put_all(cells, &mut res[..at]);
    n.put_at(res, at);
}

// What is left of a call whose lengths fit, with room for the floats and the cells.
fn closure_inside(
    dim: u32,
    count: u32,
    max_replicas: u16,
    epsilon: f32,
    vector: &[u8],
    centroids: &[u8],
    v: &mut [f32],
    c: &mut [f32],
    cells: &mut [u16],
    res: &mut [u8],
) -> Result<(), Refusal>
    requires vector_len { (length vector.now ≡ length v.old * 4) × (length centroids.now ≡ length c.old * 4) }
    requires v_len { (length v.old ≡ dim) × ((length c.old ≡ count * dim) × (length cells.old ≡ count)) }
    requires res_len { (length res.old ≡ count * 2 + 2) × (res.old ≡ replicate (length res.old) 255) }
    ensures { let row = floats_from dim vector.now in
        let centres = floats_from (count * dim) centroids.now in
        Gave (closure_call epsilon max_replicas dim count row centres count) (length res.old) (closure_written count)
        (number_in result) res.new }
{
    words::read_all(vector, v);
    words::read_all(centroids, c);
    let n = closure::call::assign(dim, count, max_replicas, epsilon, v, c, cells)?;
    put_cells(cells, n, res);
    Ok(())
}

// The same of any call, over result bytes that are 255.
fn closure_on(
    dim: u32,
    count: u32,
    max_replicas: u16,
    epsilon: f32,
    vector: &[u8],
    centroids: &[u8],
    res: &mut [u8],
) -> Result<(), Refusal>
    requires { res.old ≡ replicate (length res.old) 255 }
    ensures { let n = length res.old in
        let answer = closure_bytes_call epsilon max_replicas dim count vector.now centroids.now n in
        Gave answer n (closure_written count) (number_in result) res.new }
{
    check_closure(dim, count, vector.len(), centroids.len(), res.len())?;
    let d = dim as usize;
    let k = count as usize;
    let mut v = [0.0f32; 64];
    let mut c = [0.0f32; 4096];
    let mut cells = [0u16; 64];
    closure_inside(
        dim,
        count,
        max_replicas,
        epsilon,
        vector,
        centroids,
        &mut v[..d],
        &mut c[..k * d],
        &mut cells[..k],
        res,
    )
}

// The centroids that a row is offered, bytes in and out: 0, or the refusal's number and bytes 255.
pub fn families_closure(
    dim: u32,
    count: u32,
    max_replicas: u16,
    epsilon: f32,
    vector: &[u8],
    centroids: &[u8],
    res: &mut [u8],
) -> u32
    ensures { let n = length res.old in
        let answer = closure_bytes_call epsilon max_replicas dim count vector.now centroids.now n in
        Gave answer n (closure_written count) result res.new }
{
    blank(res);
    code(closure_on(dim, count, max_replicas, epsilon, vector, centroids, res))
}

// Refusals 1 and 2 of a label likewise.
#[tactic(auto, unfolding(crate::specs::Exports::label_refusal, sums::specs::Refusals::lowest_from))]
fn check_label(dim: u32, k: u32, row: usize, centroids: usize, res: usize) -> Result<(), Refusal>
    ensures refused { number_in result ≡ label_refusal dim k row centroids res }
    ensures fits { OnOk result (((0 < dim) × ((dim ≤ 64) × ((0 < k) × (k ≤ 64)))) × ((row ≡ dim * 4) × ((centroids ≡ k * dim * 4) × (res ≡ 2)))) }
{
    if !((1..=64).contains(&dim) && (1..=64).contains(&k)) {
        return Err(Refusal::Range);
    }
    let width = dim as usize;
    if row == width * 4 && centroids == k as usize * width * 4 && res == 2 {
        Ok(())
    } else {
        Err(Refusal::Length)
    }
}

// What is left of a call whose lengths fit, with room for the floats and the cell.
fn label_inside(
    mode: Mode,
    dim: u32,
    k: u32,
    row: &[u8],
    centroids: &[u8],
    v: &mut [f32],
    c: &mut [f32],
    cell: &mut [u16],
    res: &mut [u8],
) -> Result<(), Refusal>
    requires row_len { (length row.now ≡ length v.old * 4) × (length centroids.now ≡ length c.old * 4) }
    requires v_len { (length v.old ≡ dim) × ((length c.old ≡ k * dim) × (length cell.old ≡ 1)) }
    requires dim_nonzero { (0 < dim) × ((dim ≤ 64) × ((0 < k) × (k ≤ 64))) }
    requires res_len { (length res.old ≡ 2) × (res.old ≡ replicate (length res.old) 255) }
    ensures { Gave (label_by mode (placement_of dim k row.now centroids.now)) (length res.old) bytes16
        (number_in result) res.new }
{
    words::read_all(row, v);
    words::read_all(centroids, c);
    call::label_rows(mode, 1, dim, k, v, c, cell)?;
    cell[0].put_at(res, 0);
    Ok(())
}

// The same of any call, over result bytes that are 255.
fn label_on(
    mode: Mode,
    dim: u32,
    k: u32,
    row: &[u8],
    centroids: &[u8],
    res: &mut [u8],
) -> Result<(), Refusal>
    requires { res.old ≡ replicate (length res.old) 255 }
    ensures { let n = length res.old in
        Gave (label_call mode dim k row.now centroids.now n) n bytes16 (number_in result) res.new }
{
    check_label(dim, k, row.len(), centroids.len(), res.len())?;
    let d = dim as usize;
    let m = k as usize * d;
    let mut v = [0.0f32; 64];
    let mut c = [0.0f32; 4096];
    let mut cell = [0u16; 1];
    label_inside(
        mode,
        dim,
        k,
        row,
        centroids,
        &mut v[..d],
        &mut c[..m],
        &mut cell[..1],
        res,
    )
}

// The label of one row, bytes in and out: 0, or the refusal's number and bytes 255. An unplaced row is refused by 9, or has label 0 in the old
// way.
pub fn families_label(
    mode: Mode,
    dim: u32,
    k: u32,
    row: &[u8],
    centroids: &[u8],
    res: &mut [u8],
) -> u32
    ensures { let n = length res.old in
        Gave (label_call mode dim k row.now centroids.now n) n bytes16 result res.new }
{
    blank(res);
    code(label_on(mode, dim, k, row, centroids, res))
}

// A batch file in, its listing out: how many bytes the listing has. A buffer that is too short gets what fits.
pub fn families_list(file: &[u8], text: &mut [u8]) -> u32
    ensures value { result ≡ length (listing_of file.now) }
    ensures text_after { text.new ≡ put_front (listing_of file.now) text.old }
{
    batch::list_batch(file, text) as u32
}
