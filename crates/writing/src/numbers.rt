// Numbers in bytes.
ghost use Rattle.std.specs.Prelude.{◌≡◌, ◌≤◌, [], length};
ghost use Rattle.stream.specs.Buffers.{at_front};
ghost use Rattle.stream.specs.Reading.{number_bytes};

// Writes the lowest `W` bytes of a number, the high one first.
#[tactic(auto, unfolding(stream::specs::Reading::number_bytes))]
pub fn put_number<const W: usize>(number: u32, out: &mut [u8])
    requires { W ≤ length out.old }
    ensures { out.new ≡ at_front (number_bytes W number []) out.old }
{
    let mut rest = number;
    let mut at = W;
    while 0 < at {
        at -= 1;
        out[at] = (rest % 256) as u8;
        rest /= 256;
    }
}
