// The head of a case's record: sixteen words of 32 bits.
ghost use Rattle.std.specs.Prelude.{◌≡◌, ◌+◌, ◌≤◌, length};
ghost use Rattle.words.specs.Bytes.{u32_at};

use words::FromBytes;

#[derive(Clone, Copy)]
pub struct Head<'a> {
    pub bytes: &'a [u8],
    ghost whole: { length bytes.now ≡ 64 },
}

impl Head<'_> {
    // The word that starts at a place.
    pub fn word(self, at: usize) -> u32
        requires { at + 4 ≤ 64 }
        ensures { result ≡ u32_at self.entry.bytes.now at }
    {
        u32::read_at(self.bytes, at)
    }
}
