// A job as a caller lends it (document 01, "What comes in, what goes out").
use ground::candidates::Candidates;
use ground::charge::ModeNumbers;
use ground::matrix::Matrix;

#[derive(Clone, Copy)]
pub struct Job<'a> {
    pub text: &'a [u8],
    pub candidates: Candidates<'a>,
    pub matrix: Matrix<'a>,
    pub mode: ModeNumbers,
}
