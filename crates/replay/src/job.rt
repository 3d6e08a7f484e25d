// One job of the list: what its bytes give goes through the library, and what comes out is compared with what they record.
ghost use Rattle.std.specs.Prelude.{◌≡◌, true, ◌↔◌, ◌≤◌, length};
ghost use Rattle.jumelavorp.specs.Promise.{Segment};
ghost use Rattle.replay.specs.Lent.{rows_of, SameGiven, SameWritten};
ghost use Rattle.replay.specs.Given.{job_lent, GivenWithin, Filled};
ghost use Rattle.replay.specs.Same.{Room, recorded_bytes, Answered};

use crate::head::Head;
use crate::lent::{GivenRows, WrittenRows};
use crate::{rows, same};
use ground::answer::Numbers;

// The rows of numbers that are given, out of their bytes. (What is given is asked for here and below, and is no type, as a head's limits are none: head.rt has the reason.)
fn widen(head: Head, given: &[u8], numbers: &mut GivenRows)
    requires { GivenWithin head given.now numbers.old }
    ensures filled { Filled head given.now numbers.old numbers.new }
    ensures same { SameGiven numbers.old numbers.new }
{
    let c = head.c as usize;
    let at = head.text as usize;
    rows::fill(given, at, c, numbers.start);
    rows::fill(given, at + 2 * c, c, numbers.end);
    rows::fill(given, at + 5 * c, c, numbers.extra);
    let values = head.values() as usize;
    rows::fill(given, at + 17 * c, values, numbers.matrix);
}

// The library's answer. Text, kind and entry are lent as they lie among the bytes.
fn segment(head: Head, given: &[u8], numbers: &GivenRows, rows: &mut WrittenRows) -> Numbers
    requires { GivenWithin head given.now numbers.now }
    ensures promise { Segment (job_lent head given.now numbers.now) (rows_of rows.old) result (rows_of rows.new) }
    ensures same { SameWritten rows.old rows.new }
{
    let c = head.c as usize;
    let text = head.text as usize;
    let kind = text + 4 * c;
    let extras = text + 5 * c;
    let entry = text + 7 * c;
    let values = text + 17 * c;
    let count = head.values() as usize;
    jumelavorp::jumelavorp_segment(
        &given[..text],
        &numbers.start[..c],
        &numbers.end[..c],
        &given[kind..extras],
        &numbers.extra[..c],
        &given[entry..values],
        head.height,
        head.width,
        &numbers.matrix[..count],
        head.mode,
        head.kanji_threshold,
        head.kanji_price,
        head.other_threshold,
        head.other_price,
        rows.offset,
        rows.run,
        rows.first,
        rows.last,
        rows.left,
        rows.cost,
        rows.next,
        rows.word_offset,
        rows.word_id,
        rows.word_kind,
    )
}

// Whether the library answers a job as the list records it.
pub fn replay(
    head: Head,
    given: &[u8],
    recorded: &[u8],
    numbers: &mut GivenRows,
    rows: &mut WrittenRows,
) -> bool
    requires given { GivenWithin head given.now numbers.old }
    requires recorded { recorded_bytes head ≤ length recorded.now }
    requires room { Room head (rows_of rows.old) }
    ensures answered { (result ≡ true) ↔ Answered head given.now recorded.now (rows_of rows.old) }
    ensures given_same { SameGiven numbers.old numbers.new }
    ensures written_same { SameWritten rows.old rows.new }
{
    widen(head, given, numbers);
    let answer = segment(head, given, numbers, rows);
    same::same(head, recorded, answer, rows)
}
