// The answers of document 01, and the numbers that each returns.
ghost use Rattle.std.specs.Prelude.{◌≡◌};
ghost use Rattle.ground.specs.Answer.{refusal};

// The work is done: characters or words, and the cost.
#[derive(Clone, Copy, Debug, PartialEq, Eq)]
pub struct Done {
    pub count: u32,
    pub cost: i32,
}

// Why there is no such answer.
#[derive(Clone, Copy, Debug, PartialEq, Eq)]
pub enum Refusal {
    // The text is not UTF-8; place: just after the longest run of whole well-formed characters.
    NotUtf8 { place: u32 },
    // The text has too many bytes or too many characters.
    TooLong,
    // The candidate rows are of unequal length, or the entry bytes are not ten for each.
    Uneven,
    // There are too many candidates.
    TooMany,
    // The matrix has no such height or width, or another number of values.
    BadMatrix,
    // There is no such mode, or a price or threshold is over its limit.
    BadMode,
    // A row has too few places.
    ShortRow,
    // No kind has this number; place: the candidate, as in the three that follow.
    BadKind { place: u32 },
    // It starts below the candidate before it.
    OutOfOrder { place: u32 },
    // Its end is not above its start, or above n.
    BadSpan { place: u32 },
    // Its left or right id is outside the matrix.
    BadId { place: u32 },
    // Nothing reached ends at n.
    NoPath,
    // A link that the walk back follows is broken.
    BrokenLink,
}

pub type Answer = Result<Done, Refusal>;

// The four numbers of an answer, as they cross to C.
#[repr(C)]
#[derive(Clone, Copy, Debug, PartialEq, Eq)]
pub struct Numbers {
    pub number: u32,
    pub place: u32,
    pub count: u32,
    pub cost: i32,
}

fn numbered(number: u32, place: u32) -> Numbers
    ensures { result ≡ refusal number place }
{
    Numbers {
        number,
        place,
        count: 0,
        cost: 0,
    }
}

impl From<Done> for Numbers {
    ghost use Rattle.std.specs.Prelude.{◌≡◌, Ok};
    ghost use Rattle.ground.specs.Answer.{numbers_of};

    ghost from_gives = { λ done numbers. numbers ≡ numbers_of (Ok done) };

    fn from(done: Done) -> Numbers {
        Numbers {
            number: 0,
            place: 0,
            count: done.count,
            cost: done.cost,
        }
    }
}

impl From<Refusal> for Numbers {
    ghost use Rattle.std.specs.Prelude.{◌≡◌, Err};
    ghost use Rattle.ground.specs.Answer.{numbers_of};

    ghost from_gives = { λ why numbers. numbers ≡ numbers_of (Err why) };

    fn from(why: Refusal) -> Numbers {
        match why {
            Refusal::NotUtf8 { place } => numbered(1, place),
            Refusal::TooLong => numbered(2, 0),
            Refusal::Uneven => numbered(3, 0),
            Refusal::TooMany => numbered(4, 0),
            Refusal::BadMatrix => numbered(5, 0),
            Refusal::BadMode => numbered(6, 0),
            Refusal::ShortRow => numbered(7, 0),
            Refusal::BadKind { place } => numbered(8, place),
            Refusal::OutOfOrder { place } => numbered(9, place),
            Refusal::BadSpan { place } => numbered(10, place),
            Refusal::BadId { place } => numbered(11, place),
            Refusal::NoPath => numbered(12, 0),
            Refusal::BrokenLink => numbered(13, 0),
        }
    }
}

impl From<Answer> for Numbers {
    ghost use Rattle.std.specs.Prelude.{◌≡◌};
    ghost use Rattle.ground.specs.Answer.{numbers_of};

    ghost from_gives = { λ answer numbers. numbers ≡ numbers_of answer };

    fn from(answer: Answer) -> Numbers {
        match answer {
            Ok(done) => Numbers::from(done),
            Err(why) => Numbers::from(why),
        }
    }
}
