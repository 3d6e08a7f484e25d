// What the library left beside what the list tells of it: the four numbers and the ten rows, which lie one behind the other. (Places are those in
// all of the bytes, as the list is laid out, and so many places of each row: there is no heap, and the rows have room for any job.)
ghost use Rattle.std.specs.Prelude.{◌≡◌, true, ◌↔◌, ◌+◌, ◌*◌, ◌≤◌, length};
ghost use Rattle.replay.specs.Head.{Within};
ghost use Rattle.replay.specs.Lent.{rows_of, PositionRoom, EntryRoom, WordRoom};
ghost use Rattle.replay.specs.Same.{Positions, Entries, Words, recorded_bytes, Room, Recorded};

use crate::head::Head;
use crate::lent::WrittenRows;
use crate::rows;
use ground::answer::Numbers;

// The rows of positions, so many places of each.
fn positions(bytes: &[u8], places: usize, written: &WrittenRows) -> bool
    requires { (10 * places ≤ length bytes.now) × PositionRoom places (rows_of written.now) }
    ensures { (result ≡ true) ↔ Positions bytes.now places (rows_of written.now) }
{
    rows::same(&written.offset[..places], bytes, 0)
        && rows::same(&written.run[..places], bytes, 4 * places)
        && rows::same(&written.first[..places], bytes, 6 * places)
        && rows::same(&written.last[..places], bytes, 8 * places)
}

// The rows of entries, from a byte on.
fn entries(bytes: &[u8], from: usize, places: usize, written: &WrittenRows) -> bool
    requires { (from + 8 * places ≤ length bytes.now) × EntryRoom places (rows_of written.now) }
    ensures { (result ≡ true) ↔ Entries bytes.now from places (rows_of written.now) }
{
    rows::same(&written.left[..places], bytes, from)
        && rows::same(&written.cost[..places], bytes, from + 2 * places)
        && rows::same(&written.next[..places], bytes, from + 6 * places)
}

// The rows of words, from a byte on.
fn words(bytes: &[u8], from: usize, count: usize, written: &WrittenRows) -> bool
    requires { (from + 9 * count ≤ length bytes.now) × WordRoom count (rows_of written.now) }
    ensures { (result ≡ true) ↔ Words bytes.now from count (rows_of written.now) }
{
    let kinds = from + 8 * count;
    let end = kinds + count;
    rows::same(&written.word_offset[..count], bytes, from)
        && rows::same(&written.word_id[..count], bytes, from + 4 * count)
        && written.word_kind[..count] == bytes[kinds..end]
}

// All of them.
pub fn same(head: Head, bytes: &[u8], numbers: Numbers, written: &WrittenRows) -> bool
    requires within { Within head × (recorded_bytes head ≤ length bytes.now) }
    requires room { Room head (rows_of written.now) }
    ensures { (result ≡ true) ↔ Recorded head bytes.now numbers (rows_of written.now) }
{
    let places = head.n as usize + 1;
    let behind = 10 * places;
    let all = head.c as usize + 2;
    let count = head.numbers.count as usize;
    numbers == head.numbers
        && positions(bytes, places, written)
        && entries(bytes, behind, all, written)
        && words(bytes, behind + 8 * all, count, written)
}
