// The connection matrix (document 01, piece 3): the row of a left id as a part of the lent matrix, and the joint inside it.
ghost use Rattle.std.specs.Prelude.{◌≡◌, ◌+◌, ◌*◌, ◌≤◌, ◌<◌, ◌^◌, length};
ghost use Rattle.std.specs.Int.Signed.{mag};
ghost use Rattle.ground.specs.Matrix.{matrix_row, value_in};

// The most that a height or a width can be.
pub const SIZE_LIMIT: u32 = 65_535;

// The matrix as a caller lends it: its size, and its values row by row.
#[derive(Clone, Copy)]
pub struct Matrix<'a> {
    pub height: u32,
    pub width: u32,
    pub values: &'a [i16],
}

// The row of a later word's left id.
pub fn row(matrix: &[i16], width: usize, left_id: usize) -> &[i16]
    requires { left_id * width + width ≤ length matrix.now }
    ensures { result.now ≡ matrix_row matrix.now width left_id }
{
    let from = left_id * width;
    let to = from + width;
    &matrix[from..to]
}

// The joint with an earlier word's right id, and that sixteen bits hold it: the mag of n and of −1 − n is n, so it is −32,768 to 32,767.
pub fn joint(row: &[i16], right_id: usize) -> i32
    requires { right_id < length row.now }
    ensures { (result ≡ value_in row.now right_id) × (mag result < 2 ^ 15) }
{
    i32::from(row[right_id])
}
