// The program of document 01: it reads a patch and slices, each after its length, from standard input, feeds them in turn, and
// prints a line for each slice. What it prints for what it reads is the library's (`transcript`); here are the reads and writes.
#![tactic(auto)]

ghost use Rattle.std.specs.Prelude.{◌≡◌, ◌-◌, ◌≤◌, false, length, IfSome};
ghost use Rattle.transcript.specs.Playing.{is_stopped, Inside, PlaysAll};
ghost use Rattle.stream.specs.Bounds.{patch_file_limit};

use patch_reading::patches::PatchView;
use std::io::{Print, Read};
use transcript::{Line, Played, Stage, has_stopped, move_to_front, play};

// Where the program stands: its stage, and the part of the input that it holds, from one place to another.
#[derive(Clone, Copy)]
struct Progress {
    stage: Stage,
    from: usize,
    held: usize,
}

// Reads what has come, into room for all that a file can still lack: so it is the end of the input, and no want of room, if
// nothing comes. A read that fails ends the input too.
fn read_some(rt: &HostRuntime, room: &mut [u8]) -> usize
    requires { 65536 ≤ length room.old }
    ensures { result ≤ length room.new }
{
    rt.stdin().read(room).unwrap_or(0)
}

// Reads behind the bytes that are held; at the end of the input the program ends.
fn read_more(
    rt: &HostRuntime,
    stage: Stage,
    from: usize,
    held: usize,
    input: &mut [u8],
) -> Option<Progress>
    requires { (from ≤ held) × (held ≤ length input.old) × (held - from ≤ 65536) × (131072 ≤ length input.old) }
    ensures { IfSome result (λ next. (next.stage ≡ stage) × (next.from ≤ next.held) × (next.held ≤ length input.new)) }
{
    let kept = move_to_front(from, held, input);
    let came = read_some(rt, &mut input[kept..]);
    if came == 0 {
        return None;
    }
    Some(Progress {
        stage,
        from: 0,
        held: kept + came,
    })
}

// Plays what is held. Where there was room for one more line and the program goes on, no whole file is left.
fn play_held(input: &[u8], stage: Stage, patch: &mut [u8], lines: &mut [u8]) -> Played
    requires { Inside stage patch.old × (patch_file_limit ≤ length patch.old) }
    ensures plays { PlaysAll stage patch.old input.now lines.old result patch.new lines.new }
    ensures no_file_left { is_stopped result.stage ≡ false → 1536 ≤ length lines.new - result.written → length input.now - result.taken ≤ 65536 }
{
    play(input, stage, patch, lines)
}

// Plays what is held and writes its lines. Where there was room for one more line, no whole file is left, and more is read. The
// program ends where a refused patch stops it, and where its lines cannot be written.
fn turn(
    rt: &HostRuntime,
    progress: Progress,
    input: &mut [u8],
    patch: &mut [u8],
    lines: &mut [u8],
) -> Option<Progress>
    requires { Inside progress.stage patch.old × (patch_file_limit ≤ length patch.old) × (progress.from ≤ progress.held) × (progress.held ≤ length input.old) × (131072 ≤ length input.old) }
    ensures { IfSome result (λ next. Inside next.stage patch.new × (next.from ≤ next.held) × (next.held ≤ length input.new)) }
{
    let before = progress.stage;
    let start = progress.from;
    let held = progress.held;
    let played = play_held(&input[start..held], before, patch, lines);
    let stage = played.stage;
    let written = played.written;
    let from = start + played.taken;
    let is_written = rt.write_all(&lines[..written]).is_ok();
    if !is_written || has_stopped(stage) {
        return None;
    }
    if lines.len() - written >= Line::MAX {
        return read_more(rt, stage, from, held, input);
    }
    Some(Progress { stage, from, held })
}

// A loop that is proved has to end, and nothing says that the input does: it counts its turns up to a number that no run
// reaches.
#[tactic(auto, unfolding(transcript::specs::Playing::Inside))]
fn main(rt: HostRuntime) {
    // What is held of a file that is not whole has at most 65,536 bytes, and behind it there is room for as many again: so every
    // read is a large one.
    let mut input = [0; 131072];
    let mut patch = [0; PatchView::MAX_FILE];
    // Room for many lines, so that what came is played at once and written in one go.
    let mut lines = [0; 65536];
    let mut progress = Progress {
        stage: Stage::Awaiting,
        from: 0,
        held: 0,
    };
    for _ in 0..u64::MAX {
        let Some(next) = turn(&rt, progress, &mut input, &mut patch, &mut lines) else {
            break;
        };
        progress = next;
    }
}
