// Numbers of 16 and 32 bits and floats out of little-endian bytes, and numbers into bytes: what files and exported functions are read and written by.
#![tactic(auto)]

ghost use Rattle.std.specs.Prelude.{ℕ, ◌≡◌, ◌+◌, ◌*◌, ◌≤◌, List, length, take, drop, refl};
ghost use Rattle.std.specs.Float.{binary32};
ghost use Rattle.std.specs.Float.Ieee.{of_bits};
ghost use mathlib.Core.List.{◌++◌, flat_map};
ghost use Rattle.sums.specs.Tables.{tabulate};
ghost use Rattle.words.specs.Bytes.{u16_at, u32_at, halves_from, floats_from, words_from, bytes16, bytes32};
ghost use Rattle.words.specs.Laws.{halves_tab, words_tab, floats_tab};

// What is read from so many bytes, the lowest first.
pub trait FromBytes: Copy {
    const SIZE: usize;

    ghost SIZE: { ℕ };

    // The value whose bytes start at a place.
    ghost value: { List ℕ → ℕ → Self };

    // So many values, one after the other.
    ghost values: { ℕ → List ℕ → List Self };

    fn read_at(bytes: &[u8], at: usize) -> Self
        requires { at + SIZE ≤ length bytes.now }
        ensures { result ≡ value bytes.now at };

    ghost each: { (n : ℕ) (bytes : List ℕ) → values n bytes ≡ tabulate (λ i. value bytes (i * SIZE)) n };
}

impl FromBytes for u16 {
    const SIZE: usize = 2;

    ghost SIZE = { 2 };

    ghost value = { u16_at };

    ghost values = { halves_from };

    ghost each = { halves_tab };

    fn read_at(bytes: &[u8], at: usize) -> u16 {
        u16::from_le_bytes([bytes[at], bytes[at + 1]])
    }
}

impl FromBytes for u32 {
    const SIZE: usize = 4;

    ghost SIZE = { 4 };

    ghost value = { u32_at };

    ghost values = { words_from };

    ghost each = { words_tab };

    fn read_at(bytes: &[u8], at: usize) -> u32 {
        u32::from_le_bytes([bytes[at], bytes[at + 1], bytes[at + 2], bytes[at + 3]])
    }
}

impl FromBytes for f32 {
    const SIZE: usize = 4;

    ghost SIZE = { 4 };

    ghost value = { λ bytes at. of_bits binary32 (u32_at bytes at) };

    ghost values = { floats_from };

    ghost each = { floats_tab };

    fn read_at(bytes: &[u8], at: usize) -> f32 {
        sums::bits::float_of(u32::read_at(bytes, at))
    }
}

// A value from each so many bytes.
pub fn read_all<T: FromBytes>(bytes: &[u8], out: &mut [T])
    requires { length bytes.now ≡ length out.old * T.SIZE }
    ensures { out.new ≡ T.values (length out.old) bytes.now }
{
    for (i, x) in out.iter_mut().enumerate() {
        *x = T::read_at(bytes, i * T::SIZE);
    }
}

// What is written as so many bytes, the lowest first.
pub trait ToBytes: Copy {
    const SIZE: usize;

    ghost SIZE: { ℕ };

    ghost bytes: { Self → List ℕ };

    fn put_at(self, out: &mut [u8], at: usize)
        requires { at + SIZE ≤ length out.old }
        ensures { out.new ≡ take at out.old ++ (bytes self ++ drop (at + SIZE) out.old) };

    ghost sized: { (x : Self) → length (bytes x) ≡ SIZE };
}

impl ToBytes for u16 {
    const SIZE: usize = 2;

    ghost SIZE = { 2 };

    ghost bytes = { bytes16 };

    ghost sized = { λ x. refl };

    fn put_at(self, out: &mut [u8], at: usize) {
        out[at..at + 2].copy_from_slice(&self.to_le_bytes());
    }
}

impl ToBytes for u32 {
    const SIZE: usize = 4;

    ghost SIZE = { 4 };

    ghost bytes = { bytes32 };

    ghost sized = { λ x. refl };

    fn put_at(self, out: &mut [u8], at: usize) {
        out[at..at + 4].copy_from_slice(&self.to_le_bytes());
    }
}

// So many bytes for each value.
pub fn put_all<T: ToBytes>(cells: &[T], out: &mut [u8])
    requires { length out.old ≡ length cells.now * T.SIZE }
    ensures { out.new ≡ flat_map T.bytes cells.now }
{
    for (i, x) in cells.iter().enumerate() {
        x.put_at(out, i * T::SIZE);
    }
}
