// The tests in document 01's order: each is a function of its own, and the first that holds decides.
ghost use Rattle.std.specs.Prelude.{◌≡◌, ℕ, true, ◌+◌, ◌*◌, ◌≤◌, ◌<◌, length, None};
ghost use Rattle.ground.specs.Limits.{character_limit, candidate_limit};
ghost use Rattle.ground.specs.Entry.{entry_bytes};
ghost use Rattle.ground.specs.Answer.{unless};
ghost use Rattle.checks.specs.Job.{told};
ghost use Rattle.checks.specs.Checks.{bad_size, bad_matrix, bad_mode, input_refused};
ghost use Rattle.checks.specs.Checks.{bad_kind, below_previous, bad_span, bad_id};
ghost use Rattle.checks.specs.Inner.{mode_refused, mode_named, passed_inputs, row_too_short, EvenRows, candidate_refusal, first_refusal};

use crate::job::Job;
use ground::answer::Refusal;
use ground::candidates::Candidates;
use ground::charge::{Mode, ModeNumbers, PRICE_LIMIT, Penalty, THRESHOLD_LIMIT};
use ground::entry::{CANDIDATE_LIMIT, Entry, Kind};
use ground::matrix::{Matrix, SIZE_LIMIT};
use ground::text;

// The highest number that names a kind: the sweep looks at the highest of a row alone.
const KIND_LIMIT: u16 = 2;

// What the tests of the inputs leave: the number of characters, and the mode.
#[derive(Clone, Copy)]
pub struct Passed {
    pub n: usize,
    pub mode: Mode,
}

// The lengths of the ten rows that a job writes.
#[derive(Clone, Copy)]
pub struct RowLengths {
    pub offset: usize,
    pub run: usize,
    pub first: usize,
    pub last: usize,
    pub left: usize,
    pub cost: usize,
    pub next: usize,
    pub word_offset: usize,
    pub word_id: usize,
    pub word_kind: usize,
}

// Test 3.
fn uneven(candidates: &Candidates) -> bool
    ensures { result
        ≡ Rattle.checks.specs.Checks.uneven (length candidates.now.start.now) (length candidates.now.end.now)
        (length candidates.now.kind.now) (length candidates.now.extra.now) (length candidates.now.entry.now) }
{
    let c = candidates.start.len();
    let bytes = candidates.entry.len();
    candidates.end.len() != c
        || candidates.kind.len() != c
        || candidates.extra.len() != c
        || bytes % Entry::BYTES != 0
        || bytes / Entry::BYTES != c
}

// A height or a width that no matrix has.
fn bad_size(size: u32) -> bool
    ensures { result ≡ bad_size size }
{
    size == 0 || SIZE_LIMIT < size
}

// Test 5.
fn bad_matrix(matrix: &Matrix) -> bool
    ensures { result ≡ bad_matrix matrix.now.height matrix.now.width (length matrix.now.values.now) }
{
    bad_size(matrix.height)
        || bad_size(matrix.width)
        || matrix.values.len() != (matrix.height as usize) * (matrix.width as usize)
}

// Test 6, by the numbers of Decompose.
fn over_limit(numbers: &ModeNumbers) -> bool
    ensures { result
        ≡ bad_mode 1 numbers.now.kanji_threshold numbers.now.kanji_price numbers.now.other_threshold numbers.now.other_price }
{
    THRESHOLD_LIMIT < numbers.kanji_threshold
        || PRICE_LIMIT < numbers.kanji_price
        || THRESHOLD_LIMIT < numbers.other_threshold
        || PRICE_LIMIT < numbers.other_price
}

// Test 6, and the mode.
fn mode_of(numbers: &ModeNumbers) -> Result<Mode, Refusal>
    ensures { result ≡ unless (mode_refused numbers.now) (mode_named numbers.now) }
{
    if numbers.mode == 0 {
        return Ok(Mode::Normal);
    }
    if numbers.mode != 1 || over_limit(numbers) {
        return Err(Refusal::BadMode);
    }
    Ok(Mode::Decompose(Penalty {
        kanji_threshold: numbers.kanji_threshold as u16,
        kanji_price: numbers.kanji_price as u16,
        other_threshold: numbers.other_threshold as u16,
        other_price: numbers.other_price as u16,
    }))
}

// The tests that look at no row to be written and at no single candidate.
pub fn check_inputs(job: &Job) -> Result<Passed, Refusal>
    ensures { result ≡ unless (input_refused (told job.now)) (passed_inputs (told job.now)) }
{
    let n = text::check(job.text)?;
    if uneven(&job.candidates) {
        return Err(Refusal::Uneven);
    }
    if CANDIDATE_LIMIT < job.candidates.start.len() {
        return Err(Refusal::TooMany);
    }
    if bad_matrix(&job.matrix) {
        return Err(Refusal::BadMatrix);
    }
    let mode = mode_of(&job.mode)?;
    Ok(Passed { n, mode })
}

// Test 7.
pub fn short_row(n: usize, c: usize, lengths: RowLengths) -> bool
    requires { (n ≤ character_limit) × (c ≤ candidate_limit) }
    ensures { result ≡ row_too_short n c lengths }
{
    let positions = n + 1;
    let entries = c + 2;
    lengths.offset < positions
        || lengths.run < positions
        || lengths.first < positions
        || lengths.last < positions
        || lengths.left < entries
        || lengths.cost < entries
        || lengths.next < entries
        || lengths.word_offset < n
        || lengths.word_id < n
        || lengths.word_kind < n
}

// Test 8: no kind has this number.
fn bad_kind(number: u8) -> bool
    ensures { result ≡ bad_kind number }
{
    Kind::try_from(number).is_err()
}

// Test 9.
fn below_previous(start: &[u16], k: usize) -> bool
    requires { k < length start.now }
    ensures { result ≡ below_previous start.now k }
{
    k != 0 && start[k] < start[k - 1]
}

// Test 10.
fn bad_span(n: usize, start: u16, end: u16) -> bool
    ensures { result ≡ bad_span n start end }
{
    end <= start || n < usize::from(end)
}

// Test 11.
fn bad_id(matrix: &Matrix, entry: &[u8], k: usize) -> bool
    requires { k * entry_bytes + entry_bytes ≤ length entry.now }
    ensures { result ≡ bad_id matrix.now.height matrix.now.width entry.now k }
{
    let word = Entry::read(entry, k);
    matrix.height <= u32::from(word.left_id) || matrix.width <= u32::from(word.right_id)
}

// The tests of candidate k. (Even rows are asked for here and below, and are no type: `check_inputs` would hand on a second kind of
// candidates beside the one that the job holds. Nor are n, candidates and matrix a struct: they are the part of a job that these tests read.)
fn check_candidate(
    n: usize,
    candidates: &Candidates,
    matrix: &Matrix,
    k: usize,
) -> Result<(), Refusal>
    requires { EvenRows candidates.now × (k < length candidates.now.start.now) × (length candidates.now.start.now ≤ candidate_limit) }
    ensures { result ≡ unless (candidate_refusal n candidates.now matrix.now k) tt }
{
    let place = k as u32;
    if bad_kind(candidates.kind[k]) {
        return Err(Refusal::BadKind { place });
    }
    if below_previous(candidates.start, k) {
        return Err(Refusal::OutOfOrder { place });
    }
    if bad_span(n, candidates.start[k], candidates.end[k]) {
        return Err(Refusal::BadSpan { place });
    }
    if bad_id(matrix, candidates.entry, k) {
        return Err(Refusal::BadId { place });
    }
    Ok(())
}

// The first refusal, candidate by candidate from number 0. (Not inlined: in a job that passes it would only take registers from the rest, and here its loop
// wants them.)
#[inline(never)]
fn first_refused(n: usize, candidates: &Candidates, matrix: &Matrix) -> Result<(), Refusal>
    requires { EvenRows candidates.now × (length candidates.now.start.now ≤ candidate_limit) }
    ensures { result ≡ unless (first_refusal n candidates.now matrix.now) tt }
{
    for k in 0..candidates.start.len() {
        check_candidate(n, candidates, matrix, k)?;
    }
    Ok(())
}

// The highest of the numbers of so many candidates, or 0. The loop runs to its end and chooses values, not ways: such a loop becomes vector
// instructions.
fn highest<F: Fn(usize) -> u16>(count: usize, number: F) -> u16
    requires { (k : ℕ) → k < count → F.pre number k }
    ensures { (k : ℕ) → k < count → (r : ℕ) × F.post number k r × (r ≤ result) }
{
    let mut highest: u16 = 0;
    for k in 0..count {
        highest = highest.max(number(k));
    }
    highest
}

// The sweep: tests 8 to 11 of all candidates, row by row, by the highest number of a row or a test as 1 where it holds. It says only whether one fails. It may miss nothing:
// where it says true, no candidate is refused. (The four tests above, called in such loops as they stand, took a job an eighth
// longer: 35.0 for 31.3 microseconds, of 512 characters and 2,048 candidates in one run.)
fn all_pass(n: usize, candidates: &Candidates, matrix: &Matrix) -> bool
    requires { EvenRows candidates.now }
    ensures { result ≡ true → first_refusal n candidates.now matrix.now ≡ None }
{
    let Candidates {
        start,
        end,
        kind,
        entry,
        ..
    } = *candidates;
    let c = start.len();
    if KIND_LIMIT < highest(c, |k| u16::from(kind[k])) {
        return false;
    }
    if highest(c.saturating_sub(1), |k| u16::from(start[k + 1] < start[k])) != 0 {
        return false;
    }
    if highest(c, |k| u16::from(end[k] <= start[k])) != 0 {
        return false;
    }
    if n < usize::from(highest(c, |k| end[k])) {
        return false;
    }
    if matrix.height <= u32::from(highest(c, |k| Entry::read(entry, k).left_id)) {
        return false;
    }
    u32::from(highest(c, |k| Entry::read(entry, k).right_id)) < matrix.width
}

// The tests of all candidates. Nearly every job passes: one by one only if the sweep finds something.
pub fn check_candidates(n: usize, candidates: &Candidates, matrix: &Matrix) -> Result<(), Refusal>
    requires { EvenRows candidates.now × (length candidates.now.start.now ≤ candidate_limit) }
    ensures { result ≡ unless (first_refusal n candidates.now matrix.now) tt }
{
    if all_pass(n, candidates, matrix) {
        return Ok(());
    }
    first_refused(n, candidates, matrix)
}
