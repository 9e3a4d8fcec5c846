// Which operation a stored case is of.
ghost use Rattle.replay.specs.Operation.{Decodes};

#[derive(Clone, Copy, Debug, PartialEq, Eq)]
pub enum Operation {
    Label,
    KMeans,
    Grouping,
    Closure,
}

// A number that is none's.
#[derive(Clone, Copy, Debug, PartialEq, Eq)]
pub struct NoOperation(pub u32);

impl TryFrom<u32> for Operation {
    type Error = NoOperation;

    ghost try_from_gives = { Decodes };

    fn try_from(number: u32) -> Result<Self, NoOperation> {
        match number {
            0 => Ok(Operation::Label),
            1 => Ok(Operation::KMeans),
            2 => Ok(Operation::Grouping),
            3 => Ok(Operation::Closure),
            _ => Err(NoOperation(number)),
        }
    }
}
