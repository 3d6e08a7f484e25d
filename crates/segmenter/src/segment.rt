// The public operation "the whole job".
ghost use Rattle.std.specs.Prelude.{◌≡◌, false, length, take, ◌+◌};
ghost use Rattle.ground.specs.Characters.{Sound};
ghost use Rattle.ground.specs.Text.{letters};
ghost use Rattle.lattice.specs.Lattice.{lattice};
ghost use Rattle.lattice.specs.Rows as lattice_rows;
ghost use Rattle.lattice.specs.Accepted.{Accepted};
ghost use Rattle.lattice.specs.Size.{AllInRange};
ghost use Rattle.checks.specs.Job.{told, candidate_count};
ghost use Rattle.checks.specs.Checks.{short_row};
ghost use Rattle.walk.specs.Inner as word_rows;
ghost use Rattle.segmenter.specs.Segment.{outcome, given_in, worked};
ghost use Rattle.segmenter.specs.Answers.{Ranged};
ghost use Rattle.segmenter.specs.Lent.{ten, Finishable, Finished};

use checks::checks::{Passed, RowLengths, check_candidates, check_inputs, short_row};
use checks::job::Job;
use ground::answer::{Answer, Refusal};
use ground::candidates::Candidates;
use ground::text;
use lattice::forward;
use lattice::rows::Rows;
use lattice::sentence::Sentence;
use walk::words;
use walk::words::WordRows;

// The words of a lattice that is filled, by the left row's entries and the end mark's cost.
fn finish(
    n: usize,
    candidates: &Candidates,
    offset: &[u32],
    rows: &Rows,
    words: &mut WordRows,
) -> Answer
    requires { Finishable n candidates.now offset.now rows.now words.old }
    ensures finished { Finished n candidates.now offset.now rows.now words.old result words.new }
    ensures same_words { word_rows.SameRows words.old words.new }
{
    let mark = candidates.start.len() + 1;
    words::words(
        n,
        candidates,
        offset,
        &rows.left[..=mark],
        rows.cost[mark],
        words,
    )
}

// The work of a job that passed its tests: the characters, the lattice, the words.
fn work(
    job: &Job,
    passed: Passed,
    offset: &mut [u32],
    run: &mut [u16],
    rows: &mut Rows,
    words: &mut WordRows,
) -> Answer
    requires sound { Sound job.now.text.now passed.n
        × Accepted passed.n (given_in (told job.now) passed.mode)
        × (length job.now.candidates.kind.now ≡ length job.now.candidates.start.now) }
    requires room { short_row passed.n (candidate_count (told job.now)) (ten offset.old run.old rows.old words.old) ≡ false }
    ensures leaves { outcome result (ten offset.new run.new rows.new words.new)
        ≡ worked (letters job.now.text.now) job.now.candidates.kind.now (given_in (told job.now) passed.mode) (ten offset.old run.old rows.old words.old) }
    ensures all_in_range { AllInRange (lattice passed.n (given_in (told job.now) passed.mode)) }
    ensures same_rows { lattice_rows.SameRows rows.old rows.new × word_rows.SameRows words.old words.new }
{
    let n = passed.n;
    text::fill(job.text, n, offset, run);
    let sentence = Sentence {
        candidates: job.candidates,
        run: &run[..=n],
        mode: passed.mode,
        matrix: job.matrix.values,
        width: job.matrix.width as usize,
    };
    forward::forward_pass(n, &sentence, rows);
    finish(n, &job.candidates, &offset[..=n], rows, words)
}

// The whole job: every test before the first write. Past the tests every stored cost is in range. (The offset and the run row stay parameters: out
// of a struct a part of the run row would be lent on without its contents.)
pub fn segment(
    job: &Job,
    offset: &mut [u32],
    run: &mut [u16],
    rows: &mut Rows,
    words: &mut WordRows,
) -> Answer
    ensures leaves { outcome result (ten offset.new run.new rows.new words.new)
        ≡ Rattle.segmenter.specs.Segment.segment (told job.now) (ten offset.old run.old rows.old words.old) }
    ensures ranged { Ranged (told job.now) (ten offset.old run.old rows.old words.old) }
    ensures same_rows { lattice_rows.SameRows rows.old rows.new × word_rows.SameRows words.old words.new }
{
    let passed = check_inputs(job)?;
    let lengths = RowLengths {
        offset: offset.len(),
        run: run.len(),
        first: rows.first.len(),
        last: rows.last.len(),
        left: rows.left.len(),
        cost: rows.cost.len(),
        next: rows.next.len(),
        word_offset: words.offset.len(),
        word_id: words.id.len(),
        word_kind: words.kind.len(),
    };
    if short_row(passed.n, job.candidates.start.len(), lengths) {
        return Err(Refusal::ShortRow);
    }
    check_candidates(passed.n, &job.candidates, &job.matrix)?;
    work(job, passed, offset, run, rows, words)
}
