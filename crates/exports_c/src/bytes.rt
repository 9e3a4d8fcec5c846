// What the bench host calls on bytes, each by the function of that name, `_old_way` left off, in `exports`: numbers and little-endian bytes in, a
// number and bytes out.
ghost use Rattle.std.specs.Prelude.{◌≡◌, length};
ghost use Rattle.words.specs.Bytes.{bytes16};
ghost use Rattle.labels.specs.declared.mode.Mode.TheVariants.{Strict, OldWay};
ghost use Rattle.batch.specs.Batch.{listing_of, put_front};
ghost use Rattle.exports.specs.Exports.{Gave, label_call, closure_bytes_call, closure_written};

use labels::mode::Mode;

// The centroids that a row is offered, bytes in and out: 0, or the refusal's number and bytes 255.
#[unsafe(no_mangle)]
pub extern "C" fn families_closure(
    dim: u32,
    count: u32,
    max_replicas: u16,
    epsilon: f32,
    vector: &[u8],
    centroids: &[u8],
    res: &mut [u8],
) -> u32
    ensures { let n = length res.old in
        let answer = closure_bytes_call epsilon max_replicas dim count vector.now centroids.now n in
        Gave answer n (closure_written count) result res.new }
{
    exports::bytes::families_closure(dim, count, max_replicas, epsilon, vector, centroids, res)
}

// The label of one row, bytes in and out: 0, or the refusal's number and bytes 255; 9 for an unplaced row.
#[unsafe(no_mangle)]
pub extern "C" fn families_label(
    dim: u32,
    k: u32,
    row: &[u8],
    centroids: &[u8],
    res: &mut [u8],
) -> u32
    ensures { let n = length res.old in
        Gave (label_call Strict dim k row.now centroids.now n) n bytes16 result res.new }
{
    exports::bytes::families_label(Mode::Strict, dim, k, row, centroids, res)
}

// The same in the old way: an unplaced row has label 0.
#[unsafe(no_mangle)]
pub extern "C" fn families_label_old_way(
    dim: u32,
    k: u32,
    row: &[u8],
    centroids: &[u8],
    res: &mut [u8],
) -> u32
    ensures { let n = length res.old in
        Gave (label_call OldWay dim k row.now centroids.now n) n bytes16 result res.new }
{
    exports::bytes::families_label(Mode::OldWay, dim, k, row, centroids, res)
}

// A batch file in, its listing out: how many bytes the listing has. A buffer that is too short gets what fits.
#[unsafe(no_mangle)]
pub extern "C" fn families_list(file: &[u8], text: &mut [u8]) -> u32
    ensures value { result ≡ length (listing_of file.now) }
    ensures text_after { text.new ≡ put_front (listing_of file.now) text.old }
{
    exports::bytes::families_list(file, text)
}
