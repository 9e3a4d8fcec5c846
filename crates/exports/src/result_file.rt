// The result file, written and read (02 (vi)). Means go as the bits of their floats, which a NaN has many of.
ghost use Rattle.std.specs.Prelude.{◌≡◌, [], ◌∷◌, ℕ, length};
ghost use Rattle.results.specs.Grouping.{stored};
ghost use Rattle.results.specs.Files.{reads};
ghost use Rattle.sums.specs.Refused.{told};
ghost use Rattle.results.specs.Calls.{write_call, numbers_of, read_call};
ghost use Rattle.exports.specs.Exports.{code_of, figure_of, WriteGave, NumbersGave, ReadGave};

use crate::codes::code;
use results::reader::Numbers;
use results::{reader, writer};
use sums::refusals::Refusal;

// A grouping's file: 0, or the refusal's number, and then every byte is zero.
pub fn families_write_result(
    rows: u32,
    dim: u32,
    groups: u32,
    order: &[u16],
    ends: &[u16],
    means: &[u32],
    file: &mut [u8],
) -> u32
    ensures { let n = length file.old in
        WriteGave (write_call (stored rows dim groups order.now ends.now means.now) n) n result file.new }
{
    let answer = writer::write_result(rows, dim, groups, order, ends, means, file);
    code(answer)
}

// A file's numbers, apart from the call, and 0 after a refusal.
#[tactic(auto, unfolding(crate::specs::Exports::code_of, crate::specs::Exports::figure_of))]
fn put_numbers(
    answer: Result<Numbers, Refusal>,
    rows: &mut u32,
    dim: &mut u32,
    groups: &mut u32,
) -> u32
    ensures value { result ≡ code_of (told numbers_of answer) }
    ensures rows_after { (rows.new ≡ figure_of 0 (λ (f : ℕ × ℕ × ℕ). f.0) (told numbers_of answer))
        × ((dim.new ≡ figure_of 0 (λ (f : ℕ × ℕ × ℕ). f.1) (told numbers_of answer))
        × (groups.new ≡ figure_of 0 (λ (f : ℕ × ℕ × ℕ). f.2) (told numbers_of answer))) }
{
    match answer {
        Ok(numbers) => {
            *rows = numbers.rows;
            *dim = numbers.dim;
            *groups = numbers.groups;
            0
        }
        Err(refusal) => {
            *rows = 0;
            *dim = 0;
            *groups = 0;
            u32::from(refusal)
        }
    }
}

// The numbers of a file, by which a host makes the slices that it is read into: 0, or 10 where it is none.
pub fn families_result_numbers(file: &[u8], rows: &mut u32, dim: &mut u32, groups: &mut u32) -> u32
    ensures { NumbersGave (reads file.now) result rows.new dim.new groups.new }
{
    let numbers = reader::result_numbers(file);
    put_numbers(numbers, rows, dim, groups)
}

// A file's grouping: 0, or the refusal's number, 10 ahead of 2, and then its cells are blank and its numbers 0.
pub fn families_read_result(
    file: &[u8],
    order: &mut [u16],
    ends: &mut [u16],
    means: &mut [u32],
    rows: &mut u32,
    dim: &mut u32,
    groups: &mut u32,
) -> u32
    ensures { let lent = length order.old ∷ length ends.old ∷ length means.old ∷ [] in
        ReadGave (read_call file.now lent) (length order.old) (length ends.old) (length means.old)
        result order.new ends.new means.new rows.new dim.new groups.new }
{
    let read = reader::read_result(file, order, ends, means);
    put_numbers(read, rows, dim, groups)
}
