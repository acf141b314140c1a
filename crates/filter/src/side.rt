// The two sides of the gate.
ghost use Rattle.filter.specs.Sides.{SideOf};

#[derive(Clone, Copy, PartialEq, Eq, Debug)]
pub enum Side {
    Outside,
    Looms,
}

// A number that is not that of a side.
#[derive(Clone, Copy, PartialEq, Eq, Debug)]
pub struct NoSuchSide(pub u8);

// The number by which the input names a side.
impl TryFrom<u8> for Side {
    type Error = NoSuchSide;

    ghost try_from_gives = { SideOf };

    fn try_from(number: u8) -> Result<Side, NoSuchSide> {
        match number {
            0 => Ok(Side::Outside),
            1 => Ok(Side::Looms),
            _ => Err(NoSuchSide(number)),
        }
    }
}
