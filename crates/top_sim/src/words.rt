//! What a line of requests has next, read word by word.
//!
//! Each step answers the code by which the line is refused where it has something else there.
ghost use Rattle.std.specs.Prelude.{◌≡◌, ◌+◌, ◌<◌, ◌≤◌, ◌^◌, IfOk};
ghost use Rattle.raid_text.specs.Pattern.{pattern_bytes};
ghost use Rattle.raid_text.specs.Seen.{seen as seen_line, words_left};
ghost use Rattle.sim_queue.specs.Service.{IsTransfer};
ghost use Rattle.text_steps.specs.Answers.{Gives};
ghost use Rattle.top_sim.specs.Asked.{read_sectors};
ghost use Rattle.top_sim.specs.Format.{disk_of, next_of, next_pattern, next_span};
ghost use Rattle.top_sim.specs.Steps.{line_request, read_of, write_of, op_seen, seen};
ghost use Rattle.top_sim.specs.Format.{next_tick, op_of, request_of};

use blk_plain::{Op, Pattern, Span};
use raid_text::{Line, Words, pattern};
use sim_queue::Request;
use text_steps::{NUMBER, WORD, next_number, next_word, pass_end, pass_word};

/// The most sectors of a disk, and of all reads together.
const SECTORS: u32 = 262_144;

/// The most requests.
const REQUESTS: usize = 4096;

/// The code of a span past the disk.
const SPAN: u8 = 14;

/// The code of a tick below that of the line before.
const TICK: u8 = 15;

/// The code of one request more, or more sectors read, than there may be.
const LIMIT: u8 = 16;

/// The code of a word that is no pattern.
const PATTERN: u8 = 17;

/// SECTORS of the disk.
#[tactic(auto, unfolding(crate::specs::Format::disk_of))]
pub(crate) fn disk_in(words: &mut Words) -> Result<u32, u8>
    ensures value { Gives (λ sectors. sectors) result (disk_of (words_left words.old)) }
    ensures most { IfOk result (λ sectors. sectors ≤ 262144) }
{
    pass_word(words, b"disk", WORD)?;
    let sectors = next_number(words)?;
    if sectors == 0 || SECTORS < sectors {
        return Err(NUMBER);
    }
    pass_end(words)?;
    Ok(sectors)
}

// TICK, which isn't below that of the line before.
#[tactic(auto, unfolding(crate::specs::Format::next_tick))]
fn next_tick(low: u64, words: &mut Words) -> Result<u64, u8>
    ensures value { Gives (λ tick. (tick, words_left words.new)) result
        (next_tick low (words_left words.old)) }
    ensures order { IfOk result (λ tick. low ≤ tick) }
    ensures soon { IfOk result (λ tick. tick < 2 ^ 32) }
{
    let tick = u64::from(next_number(words)?);
    if low <= tick { Ok(tick) } else { Err(TICK) }
}

// FIRST and COUNT of a span of the disk.
#[tactic(auto, unfolding(crate::specs::Format::next_span))]
fn next_span(sectors: u32, words: &mut Words) -> Result<Span, u8>
    ensures value { Gives (λ span. (span.first, span.count, words_left words.new)) result
        (next_span sectors (words_left words.old)) }
    ensures within { IfOk result (λ span. span.first + span.count ≤ sectors) }
{
    let first = u64::from(next_number(words)?);
    let count = next_number(words)?;
    if count == 0 {
        return Err(NUMBER);
    }
    if first + u64::from(count) <= u64::from(sectors) {
        Ok(Span { first, count })
    } else {
        Err(SPAN)
    }
}

// PATTERN.
#[tactic(auto, unfolding(crate::specs::Format::next_pattern))]
fn next_pattern(words: &mut Words) -> Result<Pattern, u8>
    ensures { Gives (λ pattern. (pattern_bytes pattern, words_left words.new)) result
        (next_pattern (words_left words.old)) }
{
    let word = next_word(words)?;
    match pattern(word) {
        Some(pattern) => Ok(pattern),
        None => Err(PATTERN),
    }
}

// FIRST COUNT PATTERN.
#[tactic(auto, unfolding(crate::specs::Steps::write_of))]
fn write_in(sectors: u32, words: &mut Words) -> Result<Op, u8>
    ensures value { Gives op_seen result (write_of sectors (words_left words.old)) }
    ensures within { IfOk result (IsTransfer sectors) }
{
    let span = next_span(sectors, words)?;
    let pattern = next_pattern(words)?;
    pass_end(words)?;
    Ok(Op::Write { span, pattern })
}

// FIRST COUNT.
#[tactic(auto, unfolding(crate::specs::Steps::read_of))]
fn read_in(sectors: u32, words: &mut Words) -> Result<Op, u8>
    ensures value { Gives op_seen result (read_of sectors (words_left words.old)) }
    ensures within { IfOk result (IsTransfer sectors) }
{
    let span = next_span(sectors, words)?;
    pass_end(words)?;
    Ok(Op::Read { span })
}

// What stands behind the word that says whether it is a write or a read.
#[tactic(auto, unfolding(crate::specs::Format::op_of, crate::specs::Steps::write_of, crate::specs::Steps::read_of))]
fn op_in(sectors: u32, kind: &[u8], words: &mut Words) -> Result<Op, u8>
    ensures value { Gives op_seen result (op_of sectors kind.now (words_left words.old)) }
    ensures within { IfOk result (IsTransfer sectors) }
{
    if kind == b"write".as_slice() {
        write_in(sectors, words)
    } else if kind == b"read".as_slice() {
        read_in(sectors, words)
    } else {
        Err(WORD)
    }
}

// A request, whose tick isn't below that of the line before.
#[tactic(auto, unfolding(crate::specs::Format::request_of))]
fn request_in(sectors: u32, low: u64, words: &mut Words) -> Result<Request, u8>
    ensures value { Gives seen result (request_of sectors low (words_left words.old)) }
    ensures within { IfOk result (λ r. IsTransfer sectors r.op) }
    ensures order { IfOk result (λ r. low ≤ r.tick) }
    ensures soon { IfOk result (λ r. r.tick < 2 ^ 32) }
{
    pass_word(words, b"at", WORD)?;
    let tick = next_tick(low, words)?;
    let kind = next_word(words)?;
    let op = op_in(sectors, kind, words)?;
    Ok(Request { tick, op })
}

// The request of a line.
#[tactic(auto, unfolding(crate::specs::Steps::line_request, text_steps::specs::Steps::words_in))]
fn line_request(sectors: u32, low: u64, line: &Line) -> Result<Request, u8>
    ensures value { Gives seen result (line_request sectors low (seen_line line.now)) }
    ensures within { IfOk result (λ r. IsTransfer sectors r.op) }
    ensures order { IfOk result (λ r. low ≤ r.tick) }
    ensures soon { IfOk result (λ r. r.tick < 2 ^ 32) }
{
    if !line.sound() {
        return Err(WORD);
    }
    request_in(sectors, low, &mut line.words())
}

/// How many sectors an operation reads.
pub(crate) fn read_sectors(op: &Op) -> u64
    ensures value { result ≡ read_sectors (op_seen op.now) }
    ensures small { result < 2 ^ 32 }
{
    match op {
        Op::Read { span } => u64::from(span.count),
        Op::Write { .. } | Op::Writes { .. } | Op::Rebuild { .. } | Op::Sync { .. } => 0,
    }
}

/// The request of a line to a disk of so many sectors, behind so many requests whose reads have so
/// many sectors, and the last of which arrives at the tick `low`.
#[tactic(auto, unfolding(crate::specs::Format::next_of, crate::specs::Steps::line_request))]
pub(crate) fn next_request(
    sectors: u32,
    low: u64,
    requests: usize,
    read: u64,
    line: &Line,
) -> Result<Request, u8>
    requires { read ≤ 262144 }
    ensures value { Gives seen result (next_of sectors low requests read (seen_line line.now)) }
    ensures within { IfOk result (λ r. IsTransfer sectors r.op) }
    ensures order { IfOk result (λ r. low ≤ r.tick) }
    ensures soon { IfOk result (λ r. r.tick < 2 ^ 32) }
    ensures few { IfOk result (λ r. requests < 4096) }
    ensures bound { IfOk result (λ r. read + read_sectors (op_seen r.op) ≤ 262144) }
{
    let request = line_request(sectors, low, line)?;
    if requests < REQUESTS && read + read_sectors(&request.op) <= u64::from(SECTORS) {
        Ok(request)
    } else {
        Err(LIMIT)
    }
}
