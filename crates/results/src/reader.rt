// A result file read back into a grouping's cells.
ghost use Rattle.std.specs.Prelude.{◌≡◌, [], ◌∷◌, ℕ, ◌+◌, ◌-◌, ◌*◌, ◌≤◌, length, drop, replicate};
ghost use Rattle.sums.specs.Refusals.{accepted, on_accepted, padded, same_all};
ghost use Rattle.sums.specs.Refused.{told};
ghost use Rattle.words.specs.Bytes.{u32_at, words_from, halves_from};
ghost use Rattle.results.specs.Grouping.{each_once, rising, numbers_fit, cells_lent};
ghost use Rattle.results.specs.Files.{file_length, is_result as is_result_lem, reads};
ghost use Rattle.results.specs.Calls.{read_call, numbers_of, figures, Reads};
ghost use Rattle.results.specs.Inside.{laid_out as laid_out_lem, holds_rows as holds_rows_lem};

use crate::marks;
use sums::refusals::Refusal;
use sums::rooms;
use words::FromBytes;

// What a result file says of the grouping in it: rows, dim and how many groups.
#[derive(Clone, Copy, Debug, PartialEq, Eq)]
pub struct Numbers {
    pub rows: u32,
    pub dim: u32,
    pub groups: u32,
}

// Whether the row numbers of a block are each row once.
fn order_holds(bytes: &[u8], rows: usize) -> bool
    requires { (length bytes.now ≡ rows * 2) × (rows ≤ 4096) }
    ensures { result ≡ each_once rows (halves_from rows bytes.now) }
{
    let mut room = rooms::room::<u16, 4096>(0);
    let order = &mut room[..rows];
    words::read_all(bytes, order);
    marks::rows_once(order)
}

// Whether the ends of a block rise to the number of rows.
fn ends_hold(bytes: &[u8], groups: usize, rows: usize) -> bool
    requires { (length bytes.now ≡ groups * 2) × (groups ≤ 4096) }
    ensures { result ≡ rising 0 (halves_from groups bytes.now) rows }
{
    let mut room = rooms::room::<u16, 4096>(0);
    let ends = &mut room[..groups];
    words::read_all(bytes, ends);
    marks::rises(ends, rows)
}

// What is in the first two blocks; the means may be anything.
#[tactic(auto, unfolding(crate::specs::Inside::holds_rows), using(words::proofs::Blocks::halves_front))]
fn holds_rows(file: &[u8], rows: usize, groups: usize) -> bool
    requires { (rows ≤ 4096) × ((groups ≤ rows) × (rows * 2 + groups * 2 ≤ length file.now)) }
    ensures { result ≡ holds_rows_lem file.now rows groups }
{
    let a = rows * 2;
    let b = a + groups * 2;
    order_holds(&file[..a], rows) && ends_hold(&file[a..b], groups, rows)
}

// Starts are compared and not trusted; the numbers are in range, so no product wraps.
#[tactic(auto, unfolding(crate::specs::Inside::laid_out))]
fn laid_out(file: &[u8], rows: usize, dim: usize, groups: usize) -> bool
    requires { (24 ≤ length file.now) × ((rows ≤ 4096) × ((dim ≤ 64) × (groups ≤ rows))) }
    ensures { result ≡ laid_out_lem file.now rows dim groups }
{
    let at = file.len() - 24;
    let ends = rows * 2;
    let means = ends + groups * 2;
    file.len() == means + groups * dim * 4 + 24
        && u32::read_at(file, at) == 0
        && u32::read_at(file, at + 4) as usize == ends
        && u32::read_at(file, at + 8) as usize == means
}

// Whether rows and dim are in range.
#[tactic(auto, unfolding(crate::specs::Grouping::numbers_fit))]
fn in_range(numbers: Numbers) -> bool
    ensures { result ≡ numbers_fit numbers.rows numbers.dim }
{
    (0..=4096).contains(&numbers.rows) && (1..=64).contains(&numbers.dim)
}

// 10: whether the file is a result file, by the numbers at its end.
fn is_result(file: &[u8], numbers: Numbers) -> bool
    requires in_bounds { 24 ≤ length file.now }
    requires fact { let w : ℕ → ℕ = λ i. u32_at file.now (length file.now - 24 + i) in
        (numbers.rows ≡ w 12) × ((numbers.dim ≡ w 16) × (numbers.groups ≡ w 20)) }
    ensures { result ≡ is_result_lem file.now }
{
    if !in_range(numbers) {
        return false;
    }
    let Numbers { rows, dim, groups } = numbers;
    if rows < groups {
        return false;
    }
    if !laid_out(file, rows as usize, dim as usize, groups as usize) {
        return false;
    }
    holds_rows(file, rows as usize, groups as usize)
}

// The cells, out of a file that is as long as its numbers say, over blanks.
fn fill_cells(
    file: &[u8],
    dim: usize,
    groups: usize,
    order: &mut [u16],
    ends: &mut [u16],
    means: &mut [u32],
)
    requires order_len_bound { (length order.old ≤ 4096) × ((dim ≤ 64) × ((groups ≤ length order.old)
        × (length file.now ≡ file_length (length order.old) dim groups))) }
    requires ends_len { (length ends.old ≡ length order.old) × (length means.old ≡ length order.old * dim) }
    requires ends_value { (ends.old ≡ replicate (length ends.old) 65535) × (means.old ≡ replicate (length means.old) 0) }
    ensures order_after { order.new ≡ halves_from (length order.old) file.now }
    ensures ends_after { ends.new
        ≡ padded 65535 (length ends.old) (halves_from groups (drop (length order.old * 2) file.now)) }
    ensures means_after { means.new ≡ padded 0 (length means.old)
        (words_from (groups * dim) (drop (length order.old * 2 + groups * 2) file.now)) }
{
    let cells = groups * dim;
    let a = order.len() * 2;
    let b = a + groups * 2;
    let c = b + cells * 4;
    words::read_all(&file[..a], order);
    words::read_all(&file[a..b], &mut ends[..groups]);
    words::read_all(&file[b..c], &mut means[..cells]);
}

// 2: whether the lent slices are as long as the file's numbers say.
#[tactic(auto, unfolding(sums::specs::Refusals::same_all))]
fn lent_fit(rows: usize, dim: usize, order: usize, ends: usize, means: usize) -> bool
    requires { (rows ≤ 4096) × (dim ≤ 64) }
    ensures { result ≡ same_all (order ∷ ends ∷ means ∷ []) (cells_lent rows dim) }
{
    order == rows && ends == rows && means == rows * dim
}

// The numbers of a file, by which a caller makes the slices that it is read into: every test of 10 is made here.
pub fn result_numbers(file: &[u8]) -> Result<Numbers, Refusal>
    ensures { told numbers_of result ≡ on_accepted figures (reads file.now) }
{
    if file.len() < 24 {
        return Err(Refusal::NoResult);
    }
    let at = file.len() - 24;
    let rows = u32::read_at(file, at + 12);
    let dim = u32::read_at(file, at + 16);
    let groups = u32::read_at(file, at + 20);
    let numbers = Numbers { rows, dim, groups };
    if !is_result(file, numbers) {
        return Err(Refusal::NoResult);
    }
    Ok(numbers)
}

// What is left of a reading when the file is one with these numbers, over blank cells: 2, or the cells.
fn read_cells(
    file: &[u8],
    numbers: Numbers,
    order: &mut [u16],
    ends: &mut [u16],
    means: &mut [u32],
) -> Result<Numbers, Refusal>
    requires groups_value { accepted (numbers_of numbers) ≡ on_accepted figures (reads file.now) }
    requires order_value { (order.old ≡ replicate (length order.old) 65535)
        × ((ends.old ≡ replicate (length ends.old) 65535) × (means.old ≡ replicate (length means.old) 0)) }
    ensures { let o = length order.old in let e = length ends.old in let m = length means.old in
        Reads (read_call file.now (o ∷ e ∷ m ∷ [])) o e m result order.new ends.new means.new }
{
    let rows = numbers.rows as usize;
    let dim = numbers.dim as usize;
    if !lent_fit(rows, dim, order.len(), ends.len(), means.len()) {
        return Err(Refusal::Length);
    }
    fill_cells(file, dim, numbers.groups as usize, order, ends, means);
    Ok(numbers)
}

// The reader's whole call: 10 for what is no result file, then 2, and else the grouping. Cells are blanked first, so that no refusal leaves any.
pub fn read_result(
    file: &[u8],
    order: &mut [u16],
    ends: &mut [u16],
    means: &mut [u32],
) -> Result<Numbers, Refusal>
    ensures { let o = length order.old in let e = length ends.old in let m = length means.old in
        Reads (read_call file.now (o ∷ e ∷ m ∷ [])) o e m result order.new ends.new means.new }
{
    order.fill(65535);
    ends.fill(65535);
    means.fill(0);
    let numbers = result_numbers(file)?;
    read_cells(file, numbers, order, ends, means)
}
