// Three ways to count rows. Each is a type of its own, and only the functions here turn one into another, or into a place in a slice.
ghost use Rattle.std.specs.Prelude.{◌≡◌, ◌+◌, ◌<◌};

// A row's place inside its block.
#[derive(Clone, Copy, Debug, PartialEq, Eq)]
pub struct BlockPosition(pub u16);

// A row's place among the training rows.
#[derive(Clone, Copy, Debug, PartialEq, Eq)]
pub struct TrainingPosition(pub u16);

// A row's number in its batch.
#[derive(Clone, Copy, Debug, PartialEq, Eq)]
pub struct RowNumber(pub u16);

// The block's first row stands at `start`.
pub fn in_training(start: usize, p: BlockPosition) -> TrainingPosition
    requires { start + p.0 < 65536 }
    ensures { result.0 ≡ start + p.0 }
{
    TrainingPosition((start + usize::from(p.0)) as u16)
}

// Where a training row stands among the training rows, which are a slice of their own.
pub fn training_place(p: TrainingPosition) -> usize
    ensures { (result ≡ p.0) × (result < 65536) }
{
    usize::from(p.0)
}

// Where a row stands in its batch.
pub fn row_place(number: RowNumber) -> usize
    ensures { (result ≡ number.0) × (result < 65536) }
{
    usize::from(number.0)
}
