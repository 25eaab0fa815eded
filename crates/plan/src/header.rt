// A field's header: its tag and the length of its value, checked in the order of the table of refusals.
ghost use Rattle.std.specs.Prelude.{◌≤◌};
ghost use Rattle.plan.specs.Sizes.{most_links};
ghost use Rattle.plan.specs.Steps.{HeaderReads};

use crate::Progress;
use crate::tags::Tag;
use distances::Refusal;

#[derive(Clone, Copy)]
pub(crate) struct Header {
    pub(crate) tag: Tag,
    pub(crate) length: usize,
}

#[tactic(auto, unfolding(crate::specs::Reading::header_checks, distances::specs::Refusal::refusal))]
pub(crate) fn read_header(rest: &[u8], p: Progress) -> Result<Header, Refusal>
    requires { p.links ≤ most_links }
    ensures { HeaderReads rest.now p result }
{
    let [tag, high, low, value @ ..] = rest else {
        return Err(Refusal::CutShort);
    };
    let tag = Tag::try_from(*tag)?;
    if !tag.in_order(p.stage) {
        return Err(Refusal::OutOfPlace);
    }
    let length = u16::from_be_bytes([*high, *low]) as usize;
    if !tag.right_length(p.links, length) {
        return Err(Refusal::WrongLength);
    }
    if value.len() < length {
        return Err(Refusal::CutShort);
    }
    Ok(Header { tag, length })
}
