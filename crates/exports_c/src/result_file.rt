// The result file, written and read, each call by the function of that name in `exports`. Means go as the bits of their floats.
ghost use Rattle.std.specs.Prelude.{[], ◌∷◌, length};
ghost use Rattle.results.specs.Grouping.{stored};
ghost use Rattle.results.specs.Files.{reads};
ghost use Rattle.results.specs.Calls.{write_call, read_call};
ghost use Rattle.exports.specs.Exports.{WriteGave, NumbersGave, ReadGave};

// A grouping's file: 0, or the refusal's number, and then every byte is zero.
#[unsafe(no_mangle)]
pub extern "C" fn families_write_result(
    rows: u32,
    dim: u32,
    groups: u32,
    order: &[u16],
    ends: &[u16],
    means: &[u32],
    file: &mut [u8],
) -> u32
    ensures { let n = length file.old in
        WriteGave (write_call (stored rows dim groups order.now ends.now means.now) n) n result file.new }
{
    exports::result_file::families_write_result(rows, dim, groups, order, ends, means, file)
}

// The numbers of a file, by which a host makes the slices that it is read into: 0, or 10 where it is none.
#[unsafe(no_mangle)]
pub extern "C" fn families_result_numbers(
    file: &[u8],
    rows: &mut u32,
    dim: &mut u32,
    groups: &mut u32,
) -> u32
    ensures { NumbersGave (reads file.now) result rows.new dim.new groups.new }
{
    exports::result_file::families_result_numbers(file, rows, dim, groups)
}

// A file's grouping: 0, or the refusal's number, 10 ahead of 2, and then its cells are blank and its numbers 0.
#[unsafe(no_mangle)]
pub extern "C" fn families_read_result(
    file: &[u8],
    order: &mut [u16],
    ends: &mut [u16],
    means: &mut [u32],
    rows: &mut u32,
    dim: &mut u32,
    groups: &mut u32,
) -> u32
    ensures { let lent = length order.old ∷ length ends.old ∷ length means.old ∷ [] in
        ReadGave (read_call file.now lent) (length order.old) (length ends.old) (length means.old)
        result order.new ends.new means.new rows.new dim.new groups.new }
{
    exports::result_file::families_read_result(file, order, ends, means, rows, dim, groups)
}
