// The walk back (document 01, piece 7; `tokens_offset_into`): once over the links to test and count them, and once more to write.
ghost use Rattle.std.specs.Prelude.{◌≡◌, ◌+◌, ◌≤◌, [], length, option_map};
ghost use Rattle.ground.specs.Rows.{over};
ghost use Rattle.walk.specs.WalkBack.{link_at, walk_back, walk_back_alone, outcome};
ghost use Rattle.walk.specs.Inner.{Sure, linked};

use ground::answer::{Answer, Done, Refusal};
use ground::entry::{CANDIDATE_LIMIT, Entry};
use ground::text::CHARACTER_LIMIT;

// What a link says at a position, unless it is broken. (No Option: its None would not say "start", and a broken link is a None already.)
#[derive(Clone, Copy)]
pub enum Link {
    ToStart,
    ToCandidate { k: usize },
}

// A link, tested.
fn link_at(start: &[u16], end: &[u16], position: usize, link: u16) -> Option<Link>
    requires { length end.now ≡ length start.now }
    ensures { result ≡ link_at start.now end.now position link }
{
    if link == Entry::START {
        if position == 0 {
            return Some(Link::ToStart);
        }
        return None;
    }
    let k = usize::from(link) - 1;
    if start.len() <= k {
        return None;
    }
    let from = usize::from(start[k]);
    let to = usize::from(end[k]);
    if to <= from {
        return None;
    }
    if to != position {
        return None;
    }
    Some(Link::ToCandidate { k })
}

// (Start, end and left go beside one another, as C's `walk_back` is lent them.)
// The first pass: each link from the end mark on is tested, and the candidates are counted; none where a link is broken. Nothing is
// written.
pub fn count(start: &[u16], end: &[u16], left: &[u16], n: usize) -> Option<usize>
    requires { (length end.now ≡ length start.now) × (length start.now + 2 ≤ length left.now) }
    ensures { result ≡ option_map length (walk_back start.now end.now left.now n) }
{
    let mut position = n;
    let mut entry = start.len() + 1;
    let mut count: usize = 0;
    while let Link::ToCandidate { k } = link_at(start, end, position, left[entry])? {
        position = usize::from(start[k]);
        entry = k + 1;
        count += 1;
    }
    Some(count)
}

// The second pass: so many links once more from the end mark on, and the candidates' numbers from the last place to the first. Nothing is
// tested again. (C may lend rows that are longer: so the count goes beside them.)
fn write(left: &[u16], mark: usize, count: usize, word: &mut [u16])
    requires { Sure left.now mark count mark × (count ≤ length word.old) }
    ensures { word.new ≡ over (linked left.now count mark []) word.old }
{
    let mut entry = mark;
    for i in (0..count).rev() {
        let link = left[entry];
        word[i] = link - 1;
        entry = usize::from(link);
    }
}

// The public operation "walk back alone".
pub fn walk_back(start: &[u16], end: &[u16], left: &[u16], n: u32, word: &mut [u16]) -> Answer
    ensures { outcome result word.new
        ≡ walk_back_alone start.now end.now left.now n word.old }
{
    let n = n as usize;
    if CHARACTER_LIMIT < n {
        return Err(Refusal::TooLong);
    }
    if start.len() != end.len() {
        return Err(Refusal::Uneven);
    }
    if CANDIDATE_LIMIT < start.len() {
        return Err(Refusal::TooMany);
    }
    if left.len() < start.len() + 2 || word.len() < n {
        return Err(Refusal::ShortRow);
    }
    let count = count(start, end, left, n).ok_or(Refusal::BrokenLink)?;
    write(left, start.len() + 1, count, word);
    Ok(Done {
        count: count as u32,
        cost: 0,
    })
}
