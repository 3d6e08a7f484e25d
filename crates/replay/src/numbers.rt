// Numbers that bytes tell, the lowest byte first.
ghost use Rattle.std.specs.Prelude.{◌≡◌, true, ◌↔◌, ◌+◌, ◌≤◌, ℕ, List, length};
ghost use Rattle.ground.specs.Entry.{u16_at, u32_at};
ghost use Rattle.std.proofs.lemmas.Bool.{eqb-true, eq-eqb};
ghost use Rattle.std.proofs.lemmas.Bool.Decides.{Decides-int_eq};
ghost use Rattle.replay.specs.Numbers.{i16_at, i32_at};

use ground::entry;

pub trait Told: Copy + Eq {
    // How many bytes tell one.
    const WIDTH: usize;

    ghost WIDTH: { ℕ };

    // The number from a place on.
    ghost told_at: { List ℕ → ℕ → Self };

    fn read(bytes: &[u8], from: usize) -> Self
        requires { from + WIDTH ≤ length bytes.now }
        ensures { result ≡ told_at bytes.now from };

    // `==` says whether two are the same number.
    ghost exact: { (x y : Self) → (Self.PartialEq.eq x y ≡ true) ↔ (x ≡ y) };
}

impl Told for u16 {
    const WIDTH: usize = 2;

    ghost WIDTH = { 2 };

    ghost told_at = { u16_at };

    ghost exact = { λ x y. (eqb-true x y, eq-eqb x y) };

    fn read(bytes: &[u8], from: usize) -> u16 {
        entry::two(bytes, from)
    }
}

impl Told for u32 {
    const WIDTH: usize = 4;

    ghost WIDTH = { 4 };

    ghost told_at = { u32_at };

    ghost exact = { λ x y. (eqb-true x y, eq-eqb x y) };

    fn read(bytes: &[u8], from: usize) -> u32 {
        entry::four(bytes, from)
    }
}

impl Told for i16 {
    const WIDTH: usize = 2;

    ghost WIDTH = { 2 };

    ghost told_at = { i16_at };

    ghost exact = { Decides-int_eq };

    fn read(bytes: &[u8], from: usize) -> i16 {
        entry::signed(entry::two(bytes, from))
    }
}

impl Told for i32 {
    const WIDTH: usize = 4;

    ghost WIDTH = { 4 };

    ghost told_at = { i32_at };

    ghost exact = { Decides-int_eq };

    fn read(bytes: &[u8], from: usize) -> i32 {
        entry::four(bytes, from).cast_signed()
    }
}
