// What the lattice reads of a job (document 01, "What comes in").
use ground::candidates::Candidates;
use ground::charge::Mode;

// The candidate rows, the kanji run of each position, the mode, and the matrix with its width. (No `Matrix`: its height is not read, and its width would be
// narrower than what is taken here.)
#[derive(Clone, Copy)]
pub struct Sentence<'a> {
    pub candidates: Candidates<'a>,
    pub run: &'a [u16],
    pub mode: Mode,
    pub matrix: &'a [i16],
    pub width: usize,
}
