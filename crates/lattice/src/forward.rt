// The forward pass (document 01, pieces 5 and 6): the start mark, the candidates in their order, the end mark.
ghost use Rattle.std.specs.Prelude.{◌≡◌, suc, ◌+◌, ◌≤◌, ◌<◌, List, [], ◌∷◌, length, ◌+ℤ◌};
ghost use Rattle.ground.specs.Limits.{candidate_limit};
ghost use Rattle.lattice.specs.Words.{given_by, count};
ghost use Rattle.lattice.specs.Lattice.{LatticeEntry, mark, taken, start_mark, entries_to, lattice};
ghost use Rattle.lattice.specs.Rows.{held, SameRows, Filled, Room};
ghost use Rattle.lattice.specs.Accepted.{Accepted};
ghost use Rattle.lattice.specs.Size.{AllInRange};
ghost use Rattle.lattice.specs.Inner.{up, down, in_row, NearTaken, one_of, other_of, HeldBoth, AllSized, Readable, incoming_of, beside_of, entries_before, SizedBefore};

use crate::relaxation::{self, Pair};
use crate::rows::{self, NewEntry, ReadRows, Rows};
use crate::sentence::Sentence;
use ground::entry::Entry;
use ground::matrix;

// The start mark goes into the rows.
fn start_mark(n: usize, rows: &mut Rows)
    requires { Room n 1 (held rows.old) }
    ensures filled { Filled n (start_mark ∷ []) (held rows.old) (held rows.new) }
    ensures same { SameRows rows.old rows.new }
{
    rows::clear(n, rows.first);
    rows::clear(n, rows.last);
    rows.left[0] = Entry::NONE;
    rows.cost[0] = 0;
    rows::link(Entry::START, 0, rows);
}

// The extra and the word cost of candidate k.
fn own_cost(extra: i16, word_cost: i16) -> i32
    ensures { (result ≡ extra +ℤ word_cost) × (up result ≤ 65534) × (down result ≤ 65536) }
{
    i32::from(extra) + i32::from(word_cost)
}

// What is read of a word that goes into the lattice.
#[derive(Clone, Copy)]
pub struct Incoming {
    pub start: u16,
    pub end: u16,
    pub left_id: u16,
    pub own_cost: i32,
}

// Candidate k, or behind the candidates the end mark: it takes the row of left id 0, and has no extra and no word cost.
fn word_at(k: usize, n: usize, sentence: &Sentence) -> Incoming
    requires { Readable n (given_by sentence.now) }
    ensures value { result ≡ incoming_of n (given_by sentence.now) k }
    ensures own_cost_bound { (up result.own_cost ≤ 65534) × (down result.own_cost ≤ 65536) }
{
    let candidates = &sentence.candidates;
    if k < candidates.start.len() {
        let word = Entry::read(candidates.entry, k);
        Incoming {
            start: candidates.start[k],
            end: candidates.end[k],
            left_id: word.left_id,
            own_cost: own_cost(candidates.extra[k], word.cost),
        }
    } else {
        Incoming {
            start: n as u16,
            end: n as u16,
            left_id: Entry::MARK_ID,
            own_cost: 0,
        }
    }
}

// Which word goes in together with word k: the next candidate, if it starts where k does, and otherwise k itself. (No Option: k is relaxed beside itself then,
// which needs no jump.)
fn beside(k: usize, sentence: &Sentence) -> usize
    requires { (k ≤ count (given_by sentence.now)) × (count (given_by sentence.now) ≤ candidate_limit) }
    ensures { result ≡ beside_of (given_by sentence.now) k }
{
    let start = sentence.candidates.start;
    if start.len() <= k + 1 {
        return k;
    }
    k + usize::from(start[k] == start[k + 1])
}

// The relaxation over rows that are the caller's to write: they are lent on to be read.
fn relax(
    position: u16,
    row: &[i16],
    other_row: &[i16],
    sentence: &Sentence,
    rows: &Rows,
) -> Option<Pair>
    requires { (es : List LatticeEntry) × HeldBoth position es row.now other_row.now (given_by sentence.now) (held rows.now) }
    ensures taken { (es : List LatticeEntry)
        → HeldBoth position es row.now other_row.now (given_by sentence.now) (held rows.now)
        → (one_of result ≡ taken (in_row row.now) es (mark position)) × (other_of result ≡ taken (in_row other_row.now) es (mark position)) }
    ensures near_taken { NearTaken position (one_of result) × NearTaken position (other_of result) }
{
    let lent = ReadRows {
        first: rows.first,
        last: rows.last,
        cost: rows.cost,
        next: rows.next,
    };
    relaxation::relax(position, row, other_row, sentence, &lent)
}

// Words k and beside k go into the lattice; the number of the word behind them comes back. (What is accepted, and the room, are asked for here and
// below, and are no types: the theorems take `Accepted` and `Room` of the rules' own records.)
fn two_words(k: usize, n: usize, sentence: &Sentence, rows: &mut Rows) -> usize
    requires accepted { (k ≤ count (given_by sentence.now)) × Accepted n (given_by sentence.now) × AllSized (entries_to (given_by sentence.now) k) }
    requires room { Room n (count (given_by sentence.now) + 2) (held rows.old) × Filled n (entries_to (given_by sentence.now) k) (held rows.old) (held rows.old) }
    ensures value { result ≡ suc (beside_of (given_by sentence.now) k) }
    ensures filled { Filled n (entries_before n (given_by sentence.now) result) (held rows.old) (held rows.new) × SizedBefore n (given_by sentence.now) result }
    ensures same { SameRows rows.old rows.new }
{
    let other = beside(k, sentence);
    let word = word_at(k, n, sentence);
    let other_word = word_at(other, n, sentence);
    let row = matrix::row(sentence.matrix, sentence.width, usize::from(word.left_id));
    let other_row = matrix::row(
        sentence.matrix,
        sentence.width,
        usize::from(other_word.left_id),
    );
    let pair = relax(word.start, row, other_row, sentence, rows);
    rows::enter_two(
        NewEntry {
            number: (k + 1) as u16,
            end: usize::from(word.end),
            taken: pair.map(|offers| offers.one),
            own_cost: word.own_cost,
        },
        NewEntry {
            number: (other + 1) as u16,
            end: usize::from(other_word.end),
            taken: pair.map(|offers| offers.other),
            own_cost: other_word.own_cost,
        },
        rows,
    );
    other + 1
}

// All candidates and the end mark go into the lattice, in their order. (A step takes one or two words, so the loop counts by hand.)
fn all_words(n: usize, sentence: &Sentence, rows: &mut Rows)
    requires accepted { Accepted n (given_by sentence.now) }
    requires room { Room n (count (given_by sentence.now) + 2) (held rows.old) × Filled n (start_mark ∷ []) (held rows.old) (held rows.old) }
    ensures filled { Filled n (lattice n (given_by sentence.now)) (held rows.old) (held rows.new) }
    ensures all_in_range { AllInRange (lattice n (given_by sentence.now)) }
    ensures same { SameRows rows.old rows.new }
{
    let mut k = 0;
    while k <= sentence.candidates.start.len() {
        k = two_words(k, n, sentence, rows);
    }
}

// The forward pass: every row after it is a function of what it reads and of what the row held, and every stored cost is in range.
pub fn forward_pass(n: usize, sentence: &Sentence, rows: &mut Rows)
    requires accepted { Accepted n (given_by sentence.now) }
    requires room { Room n (count (given_by sentence.now) + 2) (held rows.old) }
    ensures filled { Filled n (lattice n (given_by sentence.now)) (held rows.old) (held rows.new) }
    ensures all_in_range { AllInRange (lattice n (given_by sentence.now)) }
    ensures same { SameRows rows.old rows.new }
{
    start_mark(n, rows);
    all_words(n, sentence, rows);
}
