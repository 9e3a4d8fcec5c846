// Draws from a lent list, in place of the source's generator (01, 'Draws').
ghost use Rattle.std.specs.Prelude.{◌≡◌, ℕ, suc, ◌+◌, ◌<◌, ◌≤◌, List, length};
ghost use Rattle.sums.specs.Tables.{up_to};
ghost use Rattle.sums.specs.Cells.{Below};
ghost use Rattle.sums.specs.Draws.{drawn, cursor_at, exchanges_from, Drawn};

use crate::cells;
use crate::cursor::{Cursor, Draws};

// A number drawn, and the place after it.
#[derive(Clone, Copy)]
pub struct Draw {
    pub number: u32,
    pub next: Cursor,
}

impl Cursor {
    // Where a call starts.
    pub fn new() -> Self
        ensures { (draws : List ℕ) → result ≡ cursor_at draws 0 }
    {
        Cursor { at: 0, pass: 0 }
    }

    // The next number and the next cursor; after the last number comes the first again, each one more than on the pass before.
    pub fn draw(self, draws: &[u32]) -> Draw
        requires { self.at < length draws.now }
        ensures inside { result.next.at < length draws.now }
        ensures steps { (n : ℕ) → self ≡ cursor_at draws.now n
            → (result.number ≡ drawn draws.now n) × (result.next ≡ cursor_at draws.now (suc n)) }
    {
        let Cursor { at, pass } = self;
        let number = draws[at].wrapping_add(pass);
        let next = at + 1;
        if next == draws.len() {
            return Draw {
                number,
                next: Cursor {
                    at: 0,
                    pass: pass.wrapping_add(1),
                },
            };
        }
        Draw {
            number,
            next: Cursor { at: next, pass },
        }
    }
}

impl<'a> Draws<'a> {
    // Where a call starts.
    pub fn new(list: &'a [u32]) -> Draws<'a>
        requires { 0 < length list.now }
        ensures lent { result.list.now ≡ list.now }
        ensures start { result.cursor ≡ cursor_at list.now 0 }
    {
        Draws {
            list,
            cursor: Cursor::new(),
        }
    }

    // The next number.
    pub fn draw(&mut self) -> u32
        ensures { Drawn self.old self.new result (λ n. drawn self.old.list.now n) (λ n. suc n) }
    {
        let drawn = self.cursor.draw(self.list);
        self.cursor = drawn.next;
        drawn.number
    }

    // Picks `count` of the numbers below the slice's length: they stand in front.
    pub fn pick(&mut self, places: &mut [u16], count: usize)
        requires { (count ≤ length places.old) × (length places.old ≤ 65536) }
        ensures below { Below (length places.old) places.new }
        ensures fact { let m = length places.old in let draws = self.old.list.now in
            Drawn self.old self.new places.new (λ n. exchanges_from draws m n 0 count (up_to m)) (λ n. n + count) }
    {
        cells::count_up(places);
        let m = places.len();
        for i in 0..count {
            let number = self.draw();
            let j = i + number as usize % (m - i);
            places.swap(i, j);
        }
    }
}
