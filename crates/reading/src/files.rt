// Files: sections, and the type that fills one. Each reader answers with what was read and the bytes behind it.
ghost use Rattle.std.specs.Prelude.{◌≡◌};
ghost use Rattle.stream.specs.declared.Fault.TheVariants.{CutShort, LeftOver};
ghost use Rattle.stream.specs.Reading.{section};
ghost use Rattle.stream.specs.TypeFiles.{read_type, type_section, type_file};
ghost use Rattle.reading.specs.Reads.{type_seen, bytes_seen, whole_seen, all_bytes};

use crate::sections::count_of;
use crate::types::{TypeView, type_end};
use stream::Fault;

// The section at the front of the bytes, whatever it holds: its length is tried before its contents.
#[tactic(auto, unfolding(stream::specs::Reading::section, stream::specs::Reading::counted, stream::specs::Reading::read_number))]
pub fn split_section(bytes: &[u8]) -> Result<(&[u8], &[u8]), Fault>
    ensures { bytes_seen result ≡ section CutShort LeftOver all_bytes bytes.now }
{
    if bytes.len() < 2 {
        return Err(Fault::CutShort);
    }
    let count = count_of(bytes[0], bytes[1]);
    if bytes.len() - 2 < count {
        return Err(Fault::CutShort);
    }
    Ok(bytes[2..].split_at(count))
}

// The type at the front of the bytes. What stands behind it is not looked at.
pub fn split_type(bytes: &[u8]) -> Result<(TypeView<'_>, &[u8]), Fault>
    ensures { type_seen result ≡ read_type bytes.now }
{
    let end = type_end(bytes)?;
    let (bytes, rest) = bytes.split_at(end);
    Ok((TypeView::new(bytes), rest))
}

// The type that fills the section at the front of the bytes.
#[tactic(auto, unfolding(stream::specs::TypeFiles::type_section, stream::specs::Reading::section, stream::specs::Reading::counted))]
pub fn split_type_section(bytes: &[u8]) -> Result<(TypeView<'_>, &[u8]), Fault>
    ensures { type_seen result ≡ type_section bytes.now }
{
    let (body, rest) = split_section(bytes)?;
    let (ty, left) = split_type(body)?;
    if left.is_empty() {
        Ok((ty, rest))
    } else {
        Err(Fault::LeftOver)
    }
}

// The type of a type file; otherwise the first fault. Any bytes may be handed in.
#[tactic(auto, unfolding(stream::specs::TypeFiles::type_file))]
pub fn read_type_file(file: &[u8]) -> Result<TypeView<'_>, Fault>
    ensures { whole_seen result ≡ type_file file.now }
{
    let (ty, rest) = split_type_section(file)?;
    if rest.is_empty() {
        Ok(ty)
    } else {
        Err(Fault::LeftOver)
    }
}
