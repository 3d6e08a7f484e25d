// The word entry (document 01, piece 1): ten bytes to a struct, the constants of the lattice's entries, and the kinds.
ghost use Rattle.std.specs.Prelude.{◌≡◌, ◌+◌, ◌*◌, ◌≤◌, ◌<◌, length};
ghost use Rattle.ground.specs.Entry.{entry_of, entry_at, entry_part, entry_bytes, u16_at, u32_at, signed16};

// The most candidates.
pub const CANDIDATE_LIMIT: usize = 16_384;

// Document 01's entry type: a word's ten bytes, read. The lattice's constants belong to it too.
#[derive(Clone, Copy)]
pub struct Entry {
    pub id: u32,
    pub cost: i16,
    pub left_id: u16,
    pub right_id: u16,
}

// Two bytes, the lower one first.
pub fn two(bytes: &[u8], i: usize) -> u16
    requires { i + 1 < length bytes.now }
    ensures { result ≡ u16_at bytes.now i }
{
    u16::from_le_bytes([bytes[i], bytes[i + 1]])
}

// Four bytes, the lowest one first.
pub fn four(bytes: &[u8], i: usize) -> u32
    requires { i + 3 < length bytes.now }
    ensures { result ≡ u32_at bytes.now i }
{
    u32::from_le_bytes([bytes[i], bytes[i + 1], bytes[i + 2], bytes[i + 3]])
}

// Sixteen bits, read with a sign.
pub fn signed(bits: u16) -> i16
    ensures { result ≡ signed16 bits }
{
    bits.cast_signed()
}

impl Entry {
    // The start mark's number in the lattice.
    pub const START: u16 = 0;
    // The start mark's right id and the end mark's left id.
    pub const MARK_ID: u16 = 0;
    // The link that leads nowhere: a number, since the rows of links are C's.
    pub const NONE: u16 = 65_535;
    // How many bytes a word entry has.
    pub const BYTES: usize = 10;

    // The entry of ten bytes. (No From of an array: of a part of the lent row one could be made only with a None that never comes.)
    fn of(bytes: &[u8]) -> Entry
        requires { length bytes.now ≡ entry_bytes }
        ensures { result ≡ entry_of bytes.now }
    {
        Entry {
            id: four(bytes, 0),
            cost: signed(two(bytes, 4)),
            left_id: two(bytes, 6),
            right_id: two(bytes, 8),
        }
    }

    // Candidate k's ten bytes: the part of the lent bytes that starts at 10 × k. (That they are there is asked for, here and below: the row is C's, and its
    // length alone tells how many entries it has.)
    fn part(bytes: &[u8], k: usize) -> &[u8]
        requires { k * entry_bytes + entry_bytes ≤ length bytes.now }
        ensures { (result.now ≡ entry_part bytes.now k) × (length result.now ≡ entry_bytes) }
    {
        let from = k * Self::BYTES;
        let to = from + Self::BYTES;
        &bytes[from..to]
    }

    // Candidate k's entry.
    pub fn read(bytes: &[u8], k: usize) -> Entry
        requires { k * entry_bytes + entry_bytes ≤ length bytes.now }
        ensures { result ≡ entry_at bytes.now k }
    {
        Self::of(Self::part(bytes, k))
    }

    // Candidate k's right id alone: two bytes, for the relaxation's inner loop.
    pub fn right_id_of(bytes: &[u8], k: usize) -> u16
        requires { k * entry_bytes + entry_bytes ≤ length bytes.now }
        ensures { result ≡ (entry_at bytes.now k).right_id }
    {
        two(Self::part(bytes, k), 8)
    }
}

// Where a word comes from.
#[derive(Clone, Copy, Debug, PartialEq, Eq)]
pub enum Kind {
    System,
    User,
    Unknown,
}

// No kind has this number.
#[derive(Clone, Copy, Debug, PartialEq, Eq)]
pub struct UnnamedKind;

impl TryFrom<u8> for Kind {
    ghost use Rattle.std.specs.Prelude.{◌≡◌};
    ghost use Rattle.ground.specs.Entry.{kind_of};

    type Error = UnnamedKind;

    ghost try_from_gives = { λ number kind. kind ≡ kind_of number };

    fn try_from(number: u8) -> Result<Kind, UnnamedKind> {
        match number {
            0 => Ok(Kind::System),
            1 => Ok(Kind::User),
            2 => Ok(Kind::Unknown),
            _ => Err(UnnamedKind),
        }
    }
}
