// The kinds of statements.
ghost use Rattle.statements.specs.Kind.{KindOf};

// The kinds of statements, by their numbers in a text. A statement in memory may have any other number too, and is then of no kind.
#[derive(Clone, Copy, PartialEq, Eq)]
pub enum Kind {
    Join = 1,
    Leave,
    AgreeView,
    AgreeHistory,
    Report,
    Prepare,
    Ack,
    Store,
}

// A number that no kind has.
#[derive(Clone, Copy, PartialEq, Eq)]
pub struct UnknownKind(pub u8);

impl TryFrom<u8> for Kind {
    type Error = UnknownKind;

    ghost try_from_gives = { KindOf };

    fn try_from(number: u8) -> Result<Self, UnknownKind> {
        match number {
            1 => Ok(Kind::Join),
            2 => Ok(Kind::Leave),
            3 => Ok(Kind::AgreeView),
            4 => Ok(Kind::AgreeHistory),
            5 => Ok(Kind::Report),
            6 => Ok(Kind::Prepare),
            7 => Ok(Kind::Ack),
            8 => Ok(Kind::Store),
            _ => Err(UnknownKind(number)),
        }
    }
}
