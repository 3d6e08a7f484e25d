// The lattice's rows (document 01, "The lattice"): one more entry, and the links of those that end at a position.
ghost use Rattle.std.specs.Prelude.{◌≡◌, suc, ◌<◌, length, replicate};
ghost use Rattle.ground.specs.Entry.{none_link};
ghost use Rattle.ground.specs.Rows.{over};
ghost use Rattle.lattice.specs.Rows.{held, SameRows};
ghost use Rattle.lattice.specs.Inner.{Linkable, linked, Enterable, entered};

use crate::relaxation::Offer;
use ground::entry::Entry;
use std::hint::select_unpredictable;

// The five rows, as a caller lends them. (Each function that writes through them ensures that they are the same rows, `SameRows`: another row could be put
// in one's place.) First and last have a place for each position, left, cost and next one for each entry.
#[derive(Drop)]
pub struct Rows<'a> {
    pub first: &'a mut [u16],
    pub last: &'a mut [u16],
    pub left: &'a mut [u16],
    pub cost: &'a mut [i32],
    pub next: &'a mut [u16],
}

// The rows as the relaxation reads them: it writes none, so a caller may lend them shared. (It does not read left.)
#[derive(Clone, Copy)]
pub struct ReadRows<'a> {
    pub first: &'a [u16],
    pub last: &'a [u16],
    pub cost: &'a [i32],
    pub next: &'a [u16],
}

// No entry ends at the positions up to n. (C may lend a row that is longer.)
pub fn clear(n: usize, row: &mut [u16])
    requires { n < length row.old }
    ensures { row.new ≡ over (replicate (suc n) none_link) row.old }
{
    row[..=n].fill(Entry::NONE);
}

// Entry x becomes the last one that ends at a position, and the next of the last so far, or the first. To link it once more changes nothing. (Which of
// the two it is cannot be foreseen, so numbers are picked and nothing is jumped over.)
pub fn link(x: u16, position: usize, rows: &mut Rows)
    requires { Linkable x position (held rows.old) }
    ensures linked { held rows.new ≡ linked x position (held rows.old) }
    ensures same { SameRows rows.old rows.new }
{
    let so_far = rows.last[position];
    let alone = so_far == Entry::NONE;
    rows.first[position] = select_unpredictable(alone, x, rows.first[position]);
    rows.last[position] = x;
    rows.next[usize::from(x)] = Entry::NONE;
    let before = select_unpredictable(alone, x, so_far);
    rows.next[usize::from(before)] = select_unpredictable(before == x, Entry::NONE, x);
}

// What is written of a word: its number in the lattice, where it ends, what it takes, and its extra and word cost.
#[derive(Clone, Copy)]
pub struct NewEntry {
    pub number: u16,
    pub end: usize,
    pub taken: Option<Offer>,
    pub own_cost: i32,
}

// One word's entry: its left and its cost, and its links if it is reached.
pub fn enter(word: NewEntry, rows: &mut Rows)
    requires { Enterable word.number word.end word.taken word.own_cost (held rows.old) }
    ensures entered { held rows.new ≡ entered word.number word.end word.taken word.own_cost (held rows.old) }
    ensures same { SameRows rows.old rows.new }
{
    let at = usize::from(word.number);
    match word.taken {
        None => {
            rows.left[at] = Entry::NONE;
            rows.cost[at] = 0;
            rows.next[at] = Entry::NONE;
        }
        Some(offer) => {
            rows.left[at] = offer.from;
            rows.cost[at] = offer.cost + word.own_cost;
            link(word.number, word.end, rows);
        }
    }
}

// One word's entry, and then another's. (Where both are one, the second time changes nothing.)
pub fn enter_two(one: NewEntry, other: NewEntry, rows: &mut Rows)
    requires enterable { Enterable one.number one.end one.taken one.own_cost (held rows.old) }
    requires enterable_after { Enterable other.number other.end other.taken other.own_cost (entered one.number one.end one.taken one.own_cost (held rows.old)) }
    ensures entered { held rows.new
        ≡ entered other.number other.end other.taken other.own_cost (entered one.number one.end one.taken one.own_cost (held rows.old)) }
    ensures same { SameRows rows.old rows.new }
{
    enter(one, rows);
    enter(other, rows);
}
