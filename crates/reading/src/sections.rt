// Sections of a file: a two-byte count and then that many bytes, which hold one tree.
ghost use Rattle.std.specs.Prelude.{◌≡◌, ◌+◌, ◌*◌, ◌<◌, length};
ghost use Rattle.stream.specs.Reading.{section};
ghost use Rattle.stream.specs.declared.Fault.TheVariants.{CutShort, LeftOver};
ghost use Rattle.reading.specs.Sections.{end_of, any_bytes};

use stream::Fault;

// A section's count: two bytes, the high one first.
pub fn count_of(high: u8, low: u8) -> usize
    ensures { (result ≡ high * 256 + low) × (result < 65536) }
{
    high as usize * 256 + low as usize
}

// Where the section at the front of the bytes ends, whatever it holds: its length is tried before its contents.
pub fn section_end(bytes: &[u8]) -> Result<usize, Fault>
    ensures { result ≡ end_of (length bytes.now) (section CutShort LeftOver any_bytes bytes.now) }
{
    let length = bytes.len();
    if length < 2 {
        return Err(Fault::CutShort);
    }
    let count = count_of(bytes[0], bytes[1]);
    if length - 2 < count {
        return Err(Fault::CutShort);
    }
    Ok(2 + count)
}
