// The mode and the charge (document 01, piece 4).
ghost use Rattle.std.specs.Prelude.{◌≡◌, ◌≤◌, pos};
ghost use Rattle.ground.specs.Limits.{price_limit};
ghost use Rattle.ground.specs.Charge.{charge, above, PricesFit};

// The most that a price and a threshold can be.
pub const PRICE_LIMIT: u32 = 32_767;

pub const THRESHOLD_LIMIT: u32 = 65_535;

// Two thresholds and two prices: of kanji only words, and of others.
#[derive(Clone, Copy, Debug, PartialEq, Eq)]
pub struct Penalty {
    pub kanji_threshold: u16,
    pub kanji_price: u16,
    pub other_threshold: u16,
    pub other_price: u16,
}

// (An enum and no Option: both have a name in the paper.)
#[derive(Clone, Copy, Debug, PartialEq, Eq)]
pub enum Mode {
    Normal,
    Decompose(Penalty),
}

// The mode as a caller names it: numbers, as they come from C. Its own, and the thresholds and prices of Decompose.
#[derive(Clone, Copy)]
pub struct ModeNumbers {
    pub mode: u32,
    pub kanji_threshold: u32,
    pub kanji_price: u32,
    pub other_threshold: u32,
    pub other_price: u32,
}

fn above(len: u16, threshold: u16, price: u16) -> i32
    requires { price ≤ price_limit }
    ensures { result ≡ pos (above len threshold price) }
{
    if threshold < len {
        (u32::from(len - threshold) * u32::from(price)) as i32
    } else {
        0
    }
}

impl Mode {
    // The charge of a word of len characters; run is the kanji run at its start.
    pub fn charge(self, run: u16, len: u16) -> i32
        requires { PricesFit self }
        ensures { result ≡ pos (charge self run len) }
    {
        match self {
            Mode::Normal => 0,
            Mode::Decompose(p) => {
                if len <= run {
                    above(len, p.kanji_threshold, p.kanji_price)
                } else {
                    above(len, p.other_threshold, p.other_price)
                }
            }
        }
    }
}
