// The program of document 01 without its reads and writes: what it prints for the files of a stream, played as they come.
#![tactic(auto)]

ghost use Rattle.std.specs.Prelude.{◌≡◌, ◌*◌, ◌-◌, ◌≤◌, ◌<◌, length, take, drop};
ghost use Rattle.stream.specs.Buffers.{at_front};
ghost use Rattle.writing.specs.Writing.{Begun};
ghost use Rattle.transcript.specs.Transcripts.{hexadecimal, number_line, fed_line, digit as Transcripts·digit};
ghost use Rattle.transcript.specs.Playing.{is_stopped, Inside, Ready, TakesFile, PlaysNext, PlaysAll};
ghost use Rattle.transcript.specs.declared.Stage.TheVariants.{Awaiting, Feeding};
ghost use Rattle.stream.specs.Bounds.{slice_limit, slice_file_limit, patch_file_limit};

use patch_reading::patches::PatchView;
use reading::prefixes::MAX_SLICE_FILE;
use reading::sections::{count_of, section_end};
use reading::types::TypeView;
use wosthile::{check, feed};
use writing::copy;

// Where the program stands between two files: it awaits the patch, feeds the slices that follow to the patch, which has so
// many bytes, or has stopped.
#[derive(Clone, Copy)]
pub enum Stage {
    Awaiting,
    Feeding(usize),
    Stopped,
}

// A program that has stopped reads no more.
#[tactic(auto, unfolding(crate::specs::Playing::is_stopped))]
pub fn has_stopped(stage: Stage) -> bool
    ensures { result ≡ is_stopped stage }
{
    matches!(stage, Stage::Stopped)
}

// What one file comes to: the stage, and how many bytes its line has.
#[derive(Clone, Copy)]
pub struct Line {
    pub stage: Stage,
    pub written: usize,
}

// What the files in some bytes come to: the stage, how many of the bytes were taken, and how many their lines have.
#[derive(Clone, Copy)]
pub struct Played {
    pub stage: Stage,
    pub taken: usize,
    pub written: usize,
}

impl Line {
    // Two characters for each of 511 and 255 bytes, the number, two spaces and the line feed.
    pub const MAX: usize = 1536;
}

// A digit in ASCII, of a number below 16.
#[tactic(auto, unfolding(crate::specs::Transcripts::digit), using(crate::proofs::Transcripts::Laws::digit_low, crate::proofs::Transcripts::Laws::digit_high))]
fn digit(value: u8) -> u8
    requires { value < 16 }
    ensures { result ≡ Transcripts·digit value }
{
    if value < 10 { 48 + value } else { 87 + value }
}

// Writes all of `source`, two digits a byte.
fn put_hexadecimal(source: &[u8], out: &mut [u8])
    requires { 2 * length source.now ≤ length out.old }
    ensures { out.new ≡ at_front (hexadecimal source.now) out.old }
{
    for (at, byte) in source.iter().enumerate() {
        out[2 * at] = digit(*byte / 16);
        out[2 * at + 1] = digit(*byte % 16);
    }
}

// The line of a refusal.
fn put_number(number: u32, out: &mut [u8]) -> usize
    requires { (number < 100) × (3 ≤ length out.old) }
    ensures { Begun (number_line number) out.old out.new result }
{
    if number < 10 {
        out[0] = digit(number as u8);
        out[1] = b'\n';
        return 2;
    }
    out[0] = digit((number / 10) as u8);
    out[1] = digit((number % 10) as u8);
    out[2] = b'\n';
    3
}

// The line of an accepted slice, from the contents of the output's section and of the left type's.
fn put_fed(output: &[u8], ty: &[u8], out: &mut [u8]) -> usize
    requires { (length output.now ≤ slice_limit) × (length ty.now ≤ 255) × (1536 ≤ length out.old) }
    ensures { Begun (fed_line output.now ty.now) out.old out.new result }
{
    out[0] = b'0';
    out[1] = b' ';
    put_hexadecimal(output, &mut out[2..]);
    let middle = 2 + 2 * output.len();
    out[middle] = b' ';
    put_hexadecimal(ty, &mut out[middle + 1..]);
    let end = middle + 1 + 2 * ty.len();
    out[end] = b'\n';
    end + 1
}

// The first file: the patch is kept if it is accepted, and otherwise the program stops.
fn take_patch(file: &[u8], patch: &mut [u8], out: &mut [u8]) -> Line
    requires { Ready Awaiting patch.old out.old }
    ensures { TakesFile Awaiting patch.old file.now out.old result patch.new out.new }
{
    let mut given = [0u8; TypeView::MAX_FILE];
    let checked = check(file, &mut given);
    if checked.number != 0 {
        return Line {
            stage: Stage::Stopped,
            written: put_number(checked.number, out),
        };
    }
    copy(file, patch);
    Line {
        stage: Stage::Feeding(file.len()),
        written: 0,
    }
}

// Feeds a slice to the patch, which stands in the first `size` bytes; the patch left takes its place. `output` and
// `next` are work bytes for what Feed writes.
fn feed_slice(
    file: &[u8],
    size: usize,
    patch: &mut [u8],
    output: &mut [u8],
    next: &mut [u8],
    out: &mut [u8],
) -> Line
    requires { Ready (Feeding size) patch.old out.old × (slice_file_limit ≤ length output.old) × (patch_file_limit ≤ length next.old) }
    ensures { TakesFile (Feeding size) patch.old file.now out.old result patch.new out.new }
{
    let fed = feed(&patch[..size], file, output, next);
    if fed.number != 0 {
        return Line {
            stage: Stage::Feeding(size),
            written: put_number(fed.number, out),
        };
    }
    let sent = fed.output;
    let kept = fed.patch;
    let type_end = 2 + count_of(next[0], next[1]);
    let written = put_fed(&output[2..sent], &next[2..type_end], out);
    copy(&next[..kept], patch);
    Line {
        stage: Stage::Feeding(kept),
        written,
    }
}

// A file after the first, with work bytes that are long enough for every answer.
fn take_slice(file: &[u8], size: usize, patch: &mut [u8], out: &mut [u8]) -> Line
    requires { Ready (Feeding size) patch.old out.old }
    ensures { TakesFile (Feeding size) patch.old file.now out.old result patch.new out.new }
{
    let mut output = [0u8; MAX_SLICE_FILE];
    let mut next = [0u8; PatchView::MAX_FILE];
    feed_slice(file, size, patch, &mut output, &mut next, out)
}

// Takes one file, if there is a whole one and the program has not stopped.
fn play_next(input: &[u8], stage: Stage, patch: &mut [u8], out: &mut [u8]) -> Played
    requires { Ready stage patch.old out.old }
    ensures { PlaysNext stage patch.old input.now out.old result patch.new out.new }
{
    let nothing = Played {
        stage,
        taken: 0,
        written: 0,
    };
    let Ok(end) = section_end(input) else {
        return nothing;
    };
    let file = &input[2..end];
    match stage {
        Stage::Awaiting => taken(end, take_patch(file, patch, out)),
        Stage::Feeding(size) => taken(end, take_slice(file, size, patch, out)),
        Stage::Stopped => nothing,
    }
}

// One file that ends at `end`, and its line.
fn taken(end: usize, line: Line) -> Played
    ensures { result ≡ record { stage = line.stage; taken = end; written = line.written } }
{
    Played {
        stage: line.stage,
        taken: end,
        written: line.written,
    }
}

// Takes one file after the other, while there is a whole one and room for a line.
pub fn play(input: &[u8], stage: Stage, patch: &mut [u8], out: &mut [u8]) -> Played
    requires { Inside stage patch.old × (patch_file_limit ≤ length patch.old) }
    ensures { PlaysAll stage patch.old input.now out.old result patch.new out.new }
{
    let mut reached = stage;
    let mut taken = 0;
    let mut written = 0;
    while out.len() - written >= Line::MAX {
        let next = play_next(&input[taken..], reached, patch, &mut out[written..]);
        reached = next.stage;
        taken += next.taken;
        written += next.written;
        if next.taken == 0 {
            break;
        }
    }
    Played {
        stage: reached,
        taken,
        written,
    }
}

// Moves the bytes from `from` to `held` to the front, so that more can be read behind them, and says how many there are.
pub fn move_to_front(from: usize, held: usize, input: &mut [u8]) -> usize
    requires { (from ≤ held) × (held ≤ length input.old) }
    ensures { Begun (take (held - from) (drop from input.old)) input.old input.new result }
{
    input.copy_within(from..held, 0);
    held - from
}
