// The words of a job (document 01, piece 7): the answer after the forward pass, and the three word rows.
ghost use Rattle.std.specs.Prelude.{◌≡◌, ◌+◌, ◌≤◌, [], length};
ghost use Rattle.ground.specs.Limits.{character_limit};
ghost use Rattle.ground.specs.Rows.{over};
ghost use Rattle.walk.specs.WordRows.{word_offsets, word_ids, word_kinds};
ghost use Rattle.walk.specs.Inner.{linked, Sure, Listed, Roomy, SameRows, Ended};

use crate::walk_back;
use ground::answer::{Answer, Done, Refusal};
use ground::candidates::Candidates;
use ground::entry::Entry;

// The word rows as a caller lends them.
#[derive(Drop)]
pub struct WordRows<'a> {
    pub offset: &'a mut [u32],
    pub id: &'a mut [u32],
    pub kind: &'a mut [u8],
}

// So many links from the end mark on, and what is told of their candidates from the last place to the first. (walk_back's `write` takes the
// same links. One walk for both would take a closure, and of the rows that a closure borrows no proof learns what they hold after it;
// an iterator over links would need the count beside it as well.)
fn write(candidates: &Candidates, offset: &[u32], left: &[u16], count: usize, rows: &mut WordRows)
    requires listed { Listed candidates.now.start.now candidates.now.kind.now candidates.now.entry.now offset.now
        × Sure left.now (length candidates.now.start.now + 1) count (length candidates.now.start.now + 1) }
    requires room { Roomy count rows.old.offset.now rows.old.id.now rows.old.kind.now × (length candidates.now.start.now + 1 ≤ length left.now) }
    ensures word_offset_after { rows.new.offset.now
        ≡ over (word_offsets offset.now candidates.now.start.now (linked left.now count (length candidates.now.start.now + 1) []))
        rows.old.offset.now }
    ensures word_id_after { rows.new.id.now
        ≡ over (word_ids candidates.now.entry.now (linked left.now count (length candidates.now.start.now + 1) []))
        rows.old.id.now }
    ensures word_kind_after { rows.new.kind.now
        ≡ over (word_kinds candidates.now.kind.now (linked left.now count (length candidates.now.start.now + 1) []))
        rows.old.kind.now }
    ensures same_rows { SameRows rows.old rows.new }
{
    let mut at = candidates.start.len() + 1;
    for i in (0..count).rev() {
        let link = usize::from(left[at]);
        let k = link - 1;
        rows.offset[i] = offset[usize::from(candidates.start[k])];
        rows.id[i] = Entry::read(candidates.entry, k).id;
        rows.kind[i] = candidates.kind[k];
        at = link;
    }
}

// 12 where the end mark is not reached; otherwise the words, counted first and then written. The cost is the end mark's.
pub fn words(
    n: usize,
    candidates: &Candidates,
    offset: &[u32],
    left: &[u16],
    cost: i32,
    rows: &mut WordRows,
) -> Answer
    requires listed { Listed candidates.now.start.now candidates.now.kind.now candidates.now.entry.now offset.now
        × (length candidates.now.end.now ≡ length candidates.now.start.now) × (n ≤ character_limit) }
    requires room { (length candidates.now.start.now + 2 ≤ length left.now) × Roomy n rows.old.offset.now rows.old.id.now rows.old.kind.now }
    ensures ended { Ended n candidates.now.start.now candidates.now.end.now candidates.now.kind.now candidates.now.entry.now offset.now left.now cost
        rows.old.offset.now rows.old.id.now rows.old.kind.now
        result
        rows.new.offset.now rows.new.id.now rows.new.kind.now }
    ensures same_rows { SameRows rows.old rows.new }
{
    let mark = candidates.start.len() + 1;
    if left[mark] == Entry::NONE {
        return Err(Refusal::NoPath);
    }
    let count = walk_back::count(candidates.start, candidates.end, left, n).ok_or(
        Refusal::BrokenLink,
    )?;
    write(candidates, offset, left, count, rows);
    Ok(Done {
        count: count as u32,
        cost,
    })
}
