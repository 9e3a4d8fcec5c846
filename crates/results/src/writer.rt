// A grouping written as a result file.
ghost use Rattle.std.specs.Prelude.{◌≡◌, [], ◌∷◌, ◌+◌, ◌*◌, ◌≤◌, length};
ghost use mathlib.Core.List.{flat_map};
ghost use Rattle.sums.specs.Refused.{number_in};
ghost use Rattle.words.specs.Bytes.{bytes32};
ghost use Rattle.sums.specs.Refusals.{same_all};
ghost use Rattle.results.specs.Grouping.{stored, content_fits as content_fits_lem};
ghost use Rattle.results.specs.Files.{file_length, trailer_of, written};
ghost use Rattle.results.specs.Calls.{write_refusal, write_call, Writes};

use crate::marks;
use sums::refusals::Refusal;

// 2: a slice is not of its length. With dim in range no product wraps, however many groups are named.
#[tactic(auto, unfolding(sums::specs::Refusals::same_all))]
fn lengths_fit(
    rows: u32,
    dim: u32,
    groups: u32,
    order: usize,
    ends: usize,
    means: usize,
    out: usize,
) -> bool
    requires { (rows ≤ 4096) × (dim ≤ 64) }
    ensures { result ≡ same_all (order ∷ ends ∷ means ∷ out ∷ []) (rows ∷ rows ∷ rows * dim ∷ file_length rows dim groups ∷ []) }
{
    let n = rows as usize;
    let wide = dim as usize;
    let k = groups as usize;
    order == n && ends == n && means == n * wide && out == n * 2 + k * 2 + k * wide * 4 + 24
}

// Refusals 1 and 2.
#[tactic(auto, unfolding(crate::specs::Calls::write_refusal, crate::specs::Grouping::numbers_fit, sums::specs::Refusals::lowest_from))]
fn check(
    rows: u32,
    dim: u32,
    groups: u32,
    order: usize,
    ends: usize,
    means: usize,
    out: usize,
) -> Result<(), Refusal>
    ensures { number_in result ≡ write_refusal rows dim groups order ends means out }
{
    if !((0..=4096).contains(&rows) && (1..=64).contains(&dim)) {
        return Err(Refusal::Range);
    }
    if !lengths_fit(rows, dim, groups, order, ends, means, out) {
        return Err(Refusal::Length);
    }
    Ok(())
}

// 10: whether the reader would give this grouping; numbers and lengths are right.
#[tactic(auto, unfolding(crate::specs::Grouping::content_fits), using(crate::proofs::Puts::to_end))]
fn content_fits(
    rows: usize,
    dim: usize,
    groups: usize,
    order: &[u16],
    ends: &[u16],
    means: &[u32],
) -> bool
    requires { (rows ≤ 4096) × ((dim ≤ 64) × ((length order.now ≡ rows) × ((length ends.now ≡ rows) × (length means.now ≡ rows * dim)))) }
    ensures { result ≡ content_fits_lem (stored rows dim groups order.now ends.now means.now) }
{
    if rows < groups {
        return false;
    }
    let cells = groups * dim;
    marks::rows_once(order)
        && marks::rises(&ends[..groups], rows)
        && marks::all_are(&ends[groups..], 65535)
        && marks::all_are(&means[cells..], 0)
}

fn put_trailer(rows: u32, dim: u32, groups: u32, out: &mut [u8])
    requires { (rows ≤ 4096) × ((groups ≤ rows) × (length out.old ≡ 24)) }
    ensures { out.new ≡ flat_map bytes32 (trailer_of rows dim groups) }
{
    let ends = rows * 2;
    let cells = [0, ends, ends + groups * 2, rows, dim, groups];
    words::put_all(&cells, out);
}

// The three blocks and the trailer.
fn put_file(
    rows: u32,
    dim: u32,
    groups: u32,
    order: &[u16],
    ends: &[u16],
    means: &[u32],
    out: &mut [u8],
)
    requires rows_bound { (rows ≤ 4096) × ((dim ≤ 64) × ((groups ≤ rows)
        × ((length order.now ≡ rows) × ((length ends.now ≡ rows) × (length means.now ≡ rows * dim))))) }
    requires out_len { length out.old ≡ file_length rows dim groups }
    ensures { out.new ≡ written (stored rows dim groups order.now ends.now means.now) }
{
    let k = groups as usize;
    let cells = k * dim as usize;
    let a = order.len() * 2;
    let b = a + k * 2;
    let c = b + cells * 4;
    words::put_all(order, &mut out[..a]);
    words::put_all(&ends[..k], &mut out[a..b]);
    words::put_all(&means[..cells], &mut out[b..c]);
    put_trailer(rows, dim, groups, &mut out[c..]);
}

// The writer's whole call: 1, 2, then 10, and else the file. The output is cleared first, so that no refusal leaves a part of one.
pub fn write_result(
    rows: u32,
    dim: u32,
    groups: u32,
    order: &[u16],
    ends: &[u16],
    means: &[u32],
    out: &mut [u8],
) -> Result<(), Refusal>
    ensures { let n = length out.old in
        Writes (write_call (stored rows dim groups order.now ends.now means.now) n) n result out.new }
{
    out.fill(0);
    check(
        rows,
        dim,
        groups,
        order.len(),
        ends.len(),
        means.len(),
        out.len(),
    )?;
    if !content_fits(
        rows as usize,
        dim as usize,
        groups as usize,
        order,
        ends,
        means,
    ) {
        return Err(Refusal::NoResult);
    }
    put_file(rows, dim, groups, order, ends, means, out);
    Ok(())
}
