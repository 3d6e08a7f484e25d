// Replays a recorded list of the Rust original's answers through the library and says which jobs it answers otherwise. The list
// comes on standard input; src/head.rt says how a job lies in it.
#![tactic(auto)]

mod head;
mod job;
mod lent;
mod list;
mod numbers;
mod rows;
mod same;

use head::{
    CANDIDATE_LIMIT, CHARACTER_LIMIT, ENTRY_LIMIT, GIVEN_LIMIT, POSITION_LIMIT, RECORDED_LIMIT,
    VALUE_LIMIT,
};
use lent::{GivenRows, WrittenRows};
use list::Broken;
use std::io;

// A proved loop has to end, and nothing says that a list does: no list has so many jobs.
const JOB_LIMIT: u64 = 1_000_000_000;

// Each job has the rows as the job before left them. Jobs are numbered from 0.
fn main(rt: HostRuntime) -> io::Result<()> {
    let mut stdin = rt.stdin();
    let mut given = [0; GIVEN_LIMIT];
    let mut recorded = [0; RECORDED_LIMIT];
    let mut numbers = GivenRows {
        start: &mut [0; CANDIDATE_LIMIT],
        end: &mut [0; CANDIDATE_LIMIT],
        extra: &mut [0; CANDIDATE_LIMIT],
        matrix: &mut [0; VALUE_LIMIT],
    };
    let mut rows = WrittenRows {
        offset: &mut [0; POSITION_LIMIT],
        run: &mut [0; POSITION_LIMIT],
        first: &mut [0; POSITION_LIMIT],
        last: &mut [0; POSITION_LIMIT],
        left: &mut [0; ENTRY_LIMIT],
        cost: &mut [0; ENTRY_LIMIT],
        next: &mut [0; ENTRY_LIMIT],
        word_offset: &mut [0; CHARACTER_LIMIT],
        word_id: &mut [0; CHARACTER_LIMIT],
        word_kind: &mut [0; CHARACTER_LIMIT],
    };
    let mut differ: u64 = 0;
    for job in 0..JOB_LIMIT {
        match list::replay_next(
            &mut stdin,
            &mut given,
            &mut recorded,
            &mut numbers,
            &mut rows,
        ) {
            Ok(Some(true)) => {}
            Ok(Some(false)) => {
                println!(rt; "job {job} differs")?;
                differ += 1;
            }
            Ok(None) => return println!(rt; "{job} jobs replayed, {differ} differ"),
            Err(broken) => return println!(rt; "{broken} at job {job}"),
        }
    }
    println!(rt; "{Broken} at job {JOB_LIMIT}")
}
