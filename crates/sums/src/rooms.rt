// Room for what is bounded.
ghost use Rattle.std.specs.Prelude.{◌≡◌, length};

// N of a kind, each `blank`. It tells its length alone, since a long array written out weighs on every fact of the function that has it.
pub fn room<T: Copy, const N: usize>(blank: T) -> [T; N]
    ensures { N ≡ length result }
{
    [blank; N]
}
