// The C library: jumelavorp's functions under their promises, once more, since C needs them by these names and parameters. include/jumelavorp.h declares it.
#![tactic(auto)]

ghost use Rattle.checks.specs.Job.{job, job_rows};
ghost use Rattle.jumelavorp.specs.Promise.{Characters, Segment, WalkBack};

use ground::answer::Numbers;

// The character table alone.
#[unsafe(no_mangle)]
pub extern "C" fn jumelavorp_characters(text: &[u8], offset: &mut [u32], run: &mut [u16]) -> Numbers
    ensures { Characters text.now offset.old run.old result offset.new run.new }
{
    jumelavorp::jumelavorp_characters(text, offset, run)
}

// The whole job.
#[unsafe(no_mangle)]
pub extern "C" fn jumelavorp_segment(
    text: &[u8],
    start: &[u16],
    end: &[u16],
    kind: &[u8],
    extra: &[i16],
    entry: &[u8],
    height: u32,
    width: u32,
    matrix: &[i16],
    mode: u32,
    kanji_threshold: u32,
    kanji_price: u32,
    other_threshold: u32,
    other_price: u32,
    offset: &mut [u32],
    run: &mut [u16],
    first: &mut [u16],
    last: &mut [u16],
    left: &mut [u16],
    cost: &mut [i32],
    next: &mut [u16],
    word_offset: &mut [u32],
    word_id: &mut [u32],
    word_kind: &mut [u8],
) -> Numbers
    ensures { Segment
        (job
        text.now start.now end.now kind.now extra.now entry.now
        height width matrix.now
        mode kanji_threshold kanji_price other_threshold other_price)
        (job_rows
        offset.old run.old first.old last.old left.old cost.old next.old
        word_offset.old word_id.old word_kind.old)
        result
        (job_rows
        offset.new run.new first.new last.new left.new cost.new next.new
        word_offset.new word_id.new word_kind.new) }
{
    jumelavorp::jumelavorp_segment(
        text,
        start,
        end,
        kind,
        extra,
        entry,
        height,
        width,
        matrix,
        mode,
        kanji_threshold,
        kanji_price,
        other_threshold,
        other_price,
        offset,
        run,
        first,
        last,
        left,
        cost,
        next,
        word_offset,
        word_id,
        word_kind,
    )
}

// The walk back alone.
#[unsafe(no_mangle)]
pub extern "C" fn jumelavorp_walk_back(
    start: &[u16],
    end: &[u16],
    left: &[u16],
    n: u32,
    word: &mut [u16],
) -> Numbers
    ensures { WalkBack start.now end.now left.now n word.old result word.new }
{
    jumelavorp::jumelavorp_walk_back(start, end, left, n, word)
}
