// The draws that a call is lent, and how far it is through them.
ghost use Rattle.std.specs.Prelude.{◌<◌, length};

// The place in the draw list, and how often the list was gone through before.
#[derive(Clone, Copy)]
pub struct Cursor {
    pub at: usize,
    pub pass: u32,
}

// The lent list, and the place of the next draw in it. What is drawn from it stands in `draws`.
#[derive(Drop)]
pub struct Draws<'a> {
    pub list: &'a [u32],
    pub cursor: Cursor,
    ghost inside: { cursor.at < length list.now },
    // the pass has 32 bits
    ghost bits: { cursor.pass < 4294967296 },
}
