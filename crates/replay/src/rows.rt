// Rows beside the bytes that tell them: what the bytes say is written into a row, or a row is compared with it.
ghost use Rattle.std.specs.Prelude.{◌≡◌, true, ◌↔◌, ◌+◌, ◌*◌, ◌≤◌, length};
ghost use Rattle.ground.specs.Rows.{over};
ghost use Rattle.replay.specs.Numbers.{told};

use crate::numbers::Told;

// Writes so many values from the row's start on. (The number stands beside the row: after a part of a row is lent out of a struct that is
// itself lent, nothing is known of its contents.)
pub fn fill<T: Told>(bytes: &[u8], from: usize, count: usize, row: &mut [T])
    requires { (from + T.WIDTH * count ≤ length bytes.now) × (count ≤ length row.old) }
    ensures { row.new ≡ over (told (T.told_at bytes.now) T.WIDTH from count) row.old }
{
    for (i, value) in row[..count].iter_mut().enumerate() {
        *value = T::read(bytes, from + T::WIDTH * i);
    }
}

// Whether a row holds what the bytes from a place on tell. (The place goes beside all of the bytes, here and in `fill`: rows lie one behind the other
// in the list.)
pub fn same<T: Told>(row: &[T], bytes: &[u8], from: usize) -> bool
    requires { from + T.WIDTH * length row.now ≤ length bytes.now }
    ensures { (result ≡ true) ↔ (row.now ≡ told (T.told_at bytes.now) T.WIDTH from (length row.now)) }
{
    for (i, value) in row.iter().enumerate() {
        if *value != T::read(bytes, from + T::WIDTH * i) {
            return false;
        }
    }
    true
}
