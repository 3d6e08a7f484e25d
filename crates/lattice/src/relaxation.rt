// The relaxation (document 01, piece 5; `add_edge_in_lattice`, `relax_decompose`): the least offer of the entries that end where a word starts. Two words
// that start at one position are relaxed together: finding the entries that end there costs more than looking at what they offer.
ghost use Rattle.std.specs.Prelude.{◌≡◌, suc, ◌<◌, List, length, get_or, pos, Some};
ghost use Rattle.ground.specs.Entry.{none_link};
ghost use Rattle.lattice.specs.Words.{given_by};
ghost use Rattle.lattice.specs.Lattice.{LatticeEntry, mark, cheaper, against, taken};
ghost use Rattle.lattice.specs.Rows.{read};
ghost use Rattle.lattice.specs.Inner.{in_row, charge_to, Chargeable, offer_of, Offering, start_offer, Near, NearPair, NearTaken, one_of, other_of, HeldBoth};

use crate::rows::ReadRows;
use crate::sentence::Sentence;
use ground::charge::Mode;
use ground::entry::Entry;
use ground::matrix;
use std::hint::select_unpredictable;

// What it costs a word to come from an entry, and the entry's number.
#[derive(Clone, Copy)]
pub struct Offer {
    pub from: u16,
    pub cost: i32,
}

// An offer to each of two words.
#[derive(Clone, Copy)]
pub struct Pair {
    pub one: Offer,
    pub other: Offer,
}

// The charge of candidate k, which ends at a position; Normal reads nothing for it.
fn charge(k: usize, position: u16, sentence: &Sentence) -> i32
    requires { Chargeable (given_by sentence.now) position k }
    ensures { result ≡ pos (charge_to (given_by sentence.now) position k) }
{
    match sentence.mode {
        Mode::Normal => 0,
        Mode::Decompose(_) => {
            let from = sentence.candidates.start[k];
            let run = sentence.run[usize::from(from)];
            sentence.mode.charge(run, position - from)
        }
    }
}

// What candidate k, which ends at a position, offers each of two words. (What is the same for both is read once.)
fn offers_of(
    k: usize,
    position: u16,
    row: &[i16],
    other_row: &[i16],
    sentence: &Sentence,
    rows: &ReadRows,
) -> Pair
    requires fits { suc k < none_link }
    requires offering { Offering row.now (given_by sentence.now) (read rows.now) position k × Offering other_row.now (given_by sentence.now) (read rows.now) position k }
    ensures one { result.one ≡ offer_of row.now (given_by sentence.now) (read rows.now) position k }
    ensures other { result.other ≡ offer_of other_row.now (given_by sentence.now) (read rows.now) position k }
    ensures near_pair { NearPair position result }
{
    let right_id = usize::from(Entry::right_id_of(sentence.candidates.entry, k));
    let charged = charge(k, position, sentence);
    let cost = rows.cost[k + 1];
    let from = (k + 1) as u16;
    Pair {
        one: Offer {
            from,
            cost: cost + matrix::joint(row, right_id) + charged,
        },
        other: Offer {
            from,
            cost: cost + matrix::joint(other_row, right_id) + charged,
        },
    }
}

// The cheaper of two offers; of equals the one that is held. (Number and cost are picked apart, so that the choice needs no jump.)
fn cheaper_of(held: Offer, rival: Offer) -> Offer
    ensures { result ≡ against cheaper held (Some rival) }
{
    let test = rival.cost < held.cost;
    Offer {
        from: select_unpredictable(test, rival.from, held.from),
        cost: select_unpredictable(test, rival.cost, held.cost),
    }
}

// The least offers of the entries that end at a position, from the lowest to the highest. (The position and both rows of the matrix go beside one another in
// three functions of this file and in the one that lends the rows on alone, and the lowest entry has been read to be tested: a struct would only be taken apart again.)
fn least_between(
    lowest: u16,
    highest: u16,
    position: u16,
    row: &[i16],
    other_row: &[i16],
    sentence: &Sentence,
    rows: &ReadRows,
) -> Pair
    requires lowest { (lowest ≡ get_or rows.now.first.now position 0) × (lowest ≡ none_link → ⊥) × (position ≡ 0 → ⊥)
        × (highest ≡ get_or rows.now.last.now position 0) }
    requires held_both { (es : List LatticeEntry) × HeldBoth position es row.now other_row.now (given_by sentence.now) (read rows.now) }
    ensures least { (es : List LatticeEntry)
        → HeldBoth position es row.now other_row.now (given_by sentence.now) (read rows.now)
        → (Some result.one ≡ taken (in_row row.now) es (mark position)) × (Some result.other ≡ taken (in_row other_row.now) es (mark position)) }
    ensures near_pair { NearPair position result }
{
    let end = usize::from(highest);
    let mut at = usize::from(lowest);
    let mut least = offers_of(at - 1, position, row, other_row, sentence, rows);
    // The links lead from entry to entry, so there is no range to go over.
    while at != end {
        at = usize::from(rows.next[at]);
        let rivals = offers_of(at - 1, position, row, other_row, sentence, rows);
        least = Pair {
            one: cheaper_of(least.one, rivals.one),
            other: cheaper_of(least.other, rivals.other),
        };
    }
    least
}

// The start mark's offer to a word that starts at 0: the joint alone.
fn from_start(row: &[i16]) -> Offer
    requires { 0 < length row.now }
    ensures { (result ≡ start_offer row.now) × Near 0 result.cost }
{
    Offer {
        from: Entry::START,
        cost: matrix::joint(row, usize::from(Entry::MARK_ID)),
    }
}

// The offers that two words take, by their rows of the matrix and the position where both start. At position 0 the start mark alone ends.
pub fn relax(
    position: u16,
    row: &[i16],
    other_row: &[i16],
    sentence: &Sentence,
    rows: &ReadRows,
) -> Option<Pair>
    requires { (es : List LatticeEntry) × HeldBoth position es row.now other_row.now (given_by sentence.now) (read rows.now) }
    ensures taken { (es : List LatticeEntry)
        → HeldBoth position es row.now other_row.now (given_by sentence.now) (read rows.now)
        → (one_of result ≡ taken (in_row row.now) es (mark position)) × (other_of result ≡ taken (in_row other_row.now) es (mark position)) }
    ensures near_taken { NearTaken position (one_of result) × NearTaken position (other_of result) }
{
    if position == 0 {
        return Some(Pair {
            one: from_start(row),
            other: from_start(other_row),
        });
    }
    let lowest = rows.first[usize::from(position)];
    if lowest == Entry::NONE {
        return None;
    }
    let highest = rows.last[usize::from(position)];
    Some(least_between(lowest, highest, position, row, other_row, sentence, rows))
}
