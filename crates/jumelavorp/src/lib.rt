// The operations as the C library offers them (jumelavorp_c exports them): each function hands its rows on and returns the four numbers
// of the answer.
#![tactic(auto)]

ghost use Rattle.checks.specs.Job.{job, job_rows};
ghost use Rattle.jumelavorp.specs.Promise.{Characters, Segment, WalkBack};

use checks::job::Job;
use ground::answer::Numbers;
use ground::candidates::Candidates;
use ground::charge::ModeNumbers;
use ground::matrix::Matrix;
use ground::text;
use lattice::rows::Rows;
use segmenter::segment;
use walk::walk_back;
use walk::words::WordRows;

// The character table alone.
pub fn jumelavorp_characters(text: &[u8], offset: &mut [u32], run: &mut [u16]) -> Numbers
    ensures { Characters text.now offset.old run.old result offset.new run.new }
{
    Numbers::from(text::characters(text, offset, run))
}

// The whole job. (C's parameters, one by one, go into the structs here.)
pub fn jumelavorp_segment(
    text: &[u8],
    start: &[u16],
    end: &[u16],
    kind: &[u8],
    extra: &[i16],
    entry: &[u8],
    height: u32,
    width: u32,
    matrix: &[i16],
    mode: u32,
    kanji_threshold: u32,
    kanji_price: u32,
    other_threshold: u32,
    other_price: u32,
    offset: &mut [u32],
    run: &mut [u16],
    first: &mut [u16],
    last: &mut [u16],
    left: &mut [u16],
    cost: &mut [i32],
    next: &mut [u16],
    word_offset: &mut [u32],
    word_id: &mut [u32],
    word_kind: &mut [u8],
) -> Numbers
    ensures { Segment
        (job
        text.now start.now end.now kind.now extra.now entry.now
        height width matrix.now
        mode kanji_threshold kanji_price other_threshold other_price)
        (job_rows
        offset.old run.old first.old last.old left.old cost.old next.old
        word_offset.old word_id.old word_kind.old)
        result
        (job_rows
        offset.new run.new first.new last.new left.new cost.new next.new
        word_offset.new word_id.new word_kind.new) }
{
    let job = Job {
        text,
        candidates: Candidates {
            start,
            end,
            kind,
            extra,
            entry,
        },
        matrix: Matrix {
            height,
            width,
            values: matrix,
        },
        mode: ModeNumbers {
            mode,
            kanji_threshold,
            kanji_price,
            other_threshold,
            other_price,
        },
    };
    let mut lattice = Rows {
        first,
        last,
        left,
        cost,
        next,
    };
    let mut words = WordRows {
        offset: word_offset,
        id: word_id,
        kind: word_kind,
    };
    Numbers::from(segment::segment(&job, offset, run, &mut lattice, &mut words))
}

// The walk back alone.
pub fn jumelavorp_walk_back(
    start: &[u16],
    end: &[u16],
    left: &[u16],
    n: u32,
    word: &mut [u16],
) -> Numbers
    ensures { WalkBack start.now end.now left.now n word.old result word.new }
{
    Numbers::from(walk_back::walk_back(start, end, left, n, word))
}
