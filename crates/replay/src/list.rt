// Reading the list.
ghost use Rattle.std.specs.Prelude.{◌≤◌, length, take, IfOk, OnOk, IfSome, Some, codes};
ghost use Rattle.std.specs.Io.KnownBytes.{Consumes};
ghost use Rattle.replay.specs.Lent.{rows_of, AnyGivenRoom, AnyRoom, SameGiven, SameWritten};
ghost use Rattle.replay.specs.List.{NextHead, Replayed};

use crate::head::{GIVEN_LIMIT, HEAD_BYTES, Head, RECORDED_LIMIT};
use crate::job;
use crate::lent::{GivenRows, WrittenRows};
use std::fmt;
use std::io::Read;

// The list is cut short in its next job, or that is beyond the limits.
#[derive(Clone, Copy, Debug, PartialEq, Eq)]
pub struct Broken;

impl fmt::Display for Broken {
    ghost output = { λ _. Some (codes "the list is broken") };

    fn fmt<W: fmt::Write>(&self, f: &mut fmt::Formatter<W>) -> fmt::Result {
        write!(f, "the list is broken")
    }
}

// Reads until the bytes are full, the list ends or a read fails, and says how many came. (A loop by hand: `read_exact` does not say how many
// came, and reads again after an interrupted read, where the list ends here.)
fn read_full<R: Read>(list: &mut R, bytes: &mut [u8]) -> usize
    ensures within { result ≤ length bytes.new }
    ensures read { Consumes (R.remaining list.old) (R.remaining list.new) (take result bytes.new) }
{
    let mut done = 0;
    while done < bytes.len() {
        match list.read(&mut bytes[done..]) {
            Ok(0) | Err(_) => break,
            Ok(n) => done += n,
        }
    }
    done
}

// The next bytes of the list, as many as there is room for.
fn fetch<R: Read>(list: &mut R, bytes: &mut [u8]) -> Result<(), Broken>
    ensures { OnOk result (Consumes (R.remaining list.old) (R.remaining list.new) bytes.new) }
{
    if read_full(list, bytes) < bytes.len() {
        return Err(Broken);
    }
    Ok(())
}

// The head that stands next, or none at the end of the list.
fn next_head<R: Read>(list: &mut R) -> Result<Option<Head>, Broken>
    ensures { IfOk result (λ next. IfSome next (NextHead (R.remaining list.old) (R.remaining list.new))) }
{
    let mut bytes = [0u8; HEAD_BYTES];
    let got = read_full(list, &mut bytes);
    if got == 0 {
        return Ok(None);
    }
    if got < HEAD_BYTES {
        return Err(Broken);
    }
    let head = Head::from(&bytes);
    if head.is_within() {
        Ok(Some(head))
    } else {
        Err(Broken)
    }
}

// One job: its head is read, and the bytes that it announces. Says whether the library's answer is the recorded one, or that there was no job.
pub fn replay_next<R: Read>(
    list: &mut R,
    given: &mut [u8; GIVEN_LIMIT],
    recorded: &mut [u8; RECORDED_LIMIT],
    numbers: &mut GivenRows,
    rows: &mut WrittenRows,
) -> Result<Option<bool>, Broken>
    requires given_room { AnyGivenRoom numbers.old }
    requires room { AnyRoom (rows_of rows.old) }
    ensures replayed { IfOk result (λ next. IfSome next (Replayed (R.remaining list.old) (R.remaining list.new) (rows_of rows.old))) }

    // The rows are the same, and keep their room, so that the next job can have them.
    ensures given_same { SameGiven numbers.old numbers.new }
    ensures written_same { SameWritten rows.old rows.new }
    ensures given_kept { AnyGivenRoom numbers.new }
    ensures kept { AnyRoom (rows_of rows.new) }
{
    let Some(head) = next_head(list)? else {
        return Ok(None);
    };
    let given = &mut given[..head.given_bytes()];
    let recorded = &mut recorded[..head.recorded_bytes()];
    fetch(list, given)?;
    fetch(list, recorded)?;
    Ok(Some(job::replay(head, given, recorded, numbers, rows)))
}
