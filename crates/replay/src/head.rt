// The head of a job in the list: thirteen numbers of four bytes, the lowest first. Behind it lie the bytes of text, start, end, kind,
// extra, entry and matrix, and then those of the ten rows, as the Rust original leaves them. (The mode's five are fields and no struct of their own, since
// `head_of` reads the list's numbers one by one in their order.)
ghost use Rattle.std.specs.Prelude.{◌≡◌, true, ◌↔◌};
ghost use Rattle.replay.specs.Head.{value_count, Within};
ghost use Rattle.replay.specs.Given.{given_bytes};
ghost use Rattle.replay.specs.Same.{recorded_bytes};

use crate::numbers::Told;
use ground::answer::Numbers;
use ground::entry;

// How many bytes a head has.
pub const HEAD_BYTES: usize = 52;

// The limits of the list: the most bytes of a text.
pub const TEXT_LIMIT: usize = 512;

// The most characters.
pub const CHARACTER_LIMIT: usize = 128;

// The most candidates.
pub const CANDIDATE_LIMIT: usize = 512;

// The most values of a matrix.
pub const VALUE_LIMIT: usize = 1_024;

// The most places of a row of positions that are compared.
pub const POSITION_LIMIT: usize = CHARACTER_LIMIT + 1;

// The most of a row of entries.
pub const ENTRY_LIMIT: usize = CANDIDATE_LIMIT + 2;

// The most bytes that a job is given.
pub const GIVEN_LIMIT: usize = TEXT_LIMIT + 17 * CANDIDATE_LIMIT + 2 * VALUE_LIMIT;

// The most that record its rows.
pub const RECORDED_LIMIT: usize = 10 * POSITION_LIMIT + 8 * ENTRY_LIMIT + 9 * CHARACTER_LIMIT;

#[derive(Clone, Copy)]
pub struct Head {
    pub text: u32,
    pub n: u32,
    pub c: u32,
    pub height: u32,
    pub width: u32,
    pub mode: u32,
    pub kanji_threshold: u32,
    pub kanji_price: u32,
    pub other_threshold: u32,
    pub other_price: u32,
    pub numbers: Numbers,
}

// The recorded answer; its place is 0. (No From: `Numbers` and an array are both of other crates.)
fn numbers_of(bytes: &[u8; HEAD_BYTES]) -> Numbers
    ensures { result ≡ Rattle.replay.specs.Head.numbers_in bytes.now }
{
    Numbers {
        number: entry::four(bytes, 40),
        place: 0,
        count: entry::four(bytes, 44),
        cost: i32::read(bytes, 48),
    }
}

impl From<&[u8; HEAD_BYTES]> for Head {
    ghost use Rattle.std.specs.Prelude.{◌≡◌};
    ghost use Rattle.replay.specs.Head.{head_of};

    ghost from_gives = { λ bytes head. head ≡ head_of bytes.now };

    fn from(bytes: &[u8; HEAD_BYTES]) -> Head {
        Head {
            text: entry::four(bytes, 0),
            n: entry::four(bytes, 4),
            c: entry::four(bytes, 8),
            height: entry::four(bytes, 12),
            width: entry::four(bytes, 16),
            mode: entry::four(bytes, 20),
            kanji_threshold: entry::four(bytes, 24),
            kanji_price: entry::four(bytes, 28),
            other_threshold: entry::four(bytes, 32),
            other_price: entry::four(bytes, 36),
            numbers: numbers_of(bytes),
        }
    }
}

impl Head {
    // How many values the matrix has.
    pub fn values(self) -> u64
        ensures { result ≡ value_count self }
    {
        u64::from(self.height) * u64::from(self.width)
    }

    // Whether the job keeps to the limits of the list. (A test, and no type: `head_of` says what any bytes tell, so its
    // value can be of no type with limits, and a second type would have the same eleven fields.)
    pub fn is_within(self) -> bool
        ensures { (result ≡ true) ↔ Within self }
    {
        self.text as usize <= TEXT_LIMIT
            && self.n as usize <= CHARACTER_LIMIT
            && self.c as usize <= CANDIDATE_LIMIT
            && self.values() <= VALUE_LIMIT as u64
            && self.numbers.count <= self.n
    }

    // How many bytes the job is given.
    pub fn given_bytes(self) -> usize
        requires { Within self }
        ensures { result ≡ given_bytes self }
    {
        self.text as usize + 17 * self.c as usize + 2 * self.values() as usize
    }

    // How many bytes record its rows.
    pub fn recorded_bytes(self) -> usize
        requires { Within self }
        ensures { result ≡ recorded_bytes self }
    {
        10 * (self.n as usize + 1) + 8 * (self.c as usize + 2) + 9 * self.numbers.count as usize
    }
}
