// Results held against stored bytes.
ghost use Rattle.std.specs.Prelude.{◌≡◌, ℕ, map, ◌*◌, eqb, length};
ghost use Rattle.std.specs.Float.{binary32};
ghost use Rattle.std.specs.Float.Ieee.{to_bits};
ghost use Rattle.sums.specs.Refusals.{same_all};
ghost use Rattle.words.specs.Bytes.{words_from};

use sums::bits;
use words::FromBytes;

// Bytes against bytes.
// Kept: `==` promises std's `pointwise`, and this is where it is shown to be the definition's `same_all`, once for both callers.
#[tactic(auto, using(crate::proofs::Sames::same_slices))]
pub fn bytes(a: &[u8], b: &[u8]) -> bool
    ensures { result ≡ same_all a.now b.now }
{
    a == b
}

// What is stored as a word.
pub trait Word: Copy {
    ghost of: { Self → ℕ };

    // Whether it is stored as this word; each type has its own test, so that one of them alone can be wrong.
    fn stored_as(self, word: u32) -> bool
        ensures { result ≡ eqb (of self) word };
}

impl Word for u16 {
    ghost of = { λ x. x };

    fn stored_as(self, word: u32) -> bool {
        u32::from(self) == word
    }
}

// A float is stored by its bits.
impl Word for f32 {
    ghost of = { to_bits binary32 };

    fn stored_as(self, word: u32) -> bool {
        bits::bits_of(self) == word
    }
}

// Values against words.
pub fn words<T: Word>(values: &[T], stored: &[u8]) -> bool
    requires { length stored.now ≡ length values.now * 4 }
    ensures { result ≡ same_all (map T.of values.now) (words_from (length values.now) stored.now) }
{
    for (i, x) in values.iter().enumerate() {
        if !x.stored_as(u32::read_at(stored, i * 4)) {
            return false;
        }
    }
    true
}
