// The public calls: the next field, and a view's costs.
ghost use Rattle.std.specs.Prelude.{◌≡◌, ◌≤◌, OnOk};
ghost use Rattle.distances.specs.Refusal.{refusal, reply_number};
ghost use Rattle.plan.specs.Sizes.{most_links};
ghost use Rattle.plan.specs.Reading.{graph_counted, progress_in_range, reading, read_reply, costs_checks, stored, costs_reply};

use crate::header::read_header;
use crate::sizes::{COST_BYTES, HEADER_BYTES};
use crate::values::{check_value, cost_in, costs_fit, field_of};
use crate::{Field, Progress};
use distances::Refusal;
use distances::sizes::{LEAST_BRIDGES, MOST_BRIDGES, MOST_LINKS, MOST_VIEWS};

#[tactic(auto, unfolding(crate::specs::Reading::graph_counted))]
fn graph_counted(p: Progress) -> bool
    ensures { result ≡ graph_counted p }
{
    LEAST_BRIDGES <= p.bridges && p.bridges <= MOST_BRIDGES && p.links <= MOST_LINKS
}

// Can a plan have come so far? Shared with the list of events, which tests a progress once.
#[tactic(auto, unfolding(crate::specs::Reading::progress_in_range))]
pub(crate) fn progress_in_range(p: Progress) -> bool
    ensures { result ≡ progress_in_range p }
{
    match p.stage {
        0 => p.bridges == 0 && p.links == 0 && p.views == 0,
        1 => graph_counted(p) && p.views == 0,
        2 | 3 => graph_counted(p) && 1 <= p.views && p.views <= MOST_VIEWS,
        _ => false,
    }
}

// The field at the head of the bytes that are left, and the bytes that it takes; none where the plan properly ends. A progress that no plan
// leads to is out of range.
#[tactic(auto, using(crate::proofs::Laws::few_links), unfolding(crate::specs::Reading::read_reply, crate::specs::Reading::read_of, crate::specs::Reading::field_refusal))]
pub fn read_field(rest: &[u8], p: Progress) -> Result<Option<(Field, usize)>, Refusal>
    ensures { reading result ≡ read_reply rest.now p }
{
    if !progress_in_range(p) {
        return Err(Refusal::OutOfRange);
    }
    if rest.is_empty() {
        if p.views == 0 {
            return Err(Refusal::OutOfPlace);
        }
        return Ok(None);
    }
    let header = read_header(rest, p)?;
    check_value(header.tag, rest, p)?;
    Ok(Some((field_of(header.tag, rest), HEADER_BYTES + header.length)))
}

// A row of `room` numbers has to have room for the most links, and the bytes for the header and for each link's cost.
#[tactic(auto, unfolding(crate::specs::Reading::costs_checks, distances::specs::Refusal::refusal))]
fn check_costs(rest: &[u8], links: usize, room: usize) -> Result<(), Refusal>
    ensures checked { reply_number result ≡ refusal (costs_checks rest.now links room) }
    ensures fits { OnOk result ((links ≤ most_links) × (most_links ≤ room)) }
{
    if MOST_LINKS < links || room < MOST_LINKS {
        return Err(Refusal::OutOfRange);
    }
    if rest.len() < HEADER_BYTES + COST_BYTES * links {
        return Err(Refusal::CutShort);
    }
    if !costs_fit(rest, links) {
        return Err(Refusal::CostTooHigh);
    }
    Ok(())
}

// A view's costs into a lent row: the first `links` numbers. A refused call leaves the row as it was.
#[tactic(auto, unfolding(crate::specs::Reading::costs_reply, crate::specs::Reading::with_costs))]
pub fn read_costs(rest: &[u8], links: usize, row: &mut [u32]) -> Result<(), Refusal>
    ensures { stored (reply_number result) row.new ≡ costs_reply rest.now links row.old }
{
    check_costs(rest, links, row.len())?;
    for l in 0..links {
        row[l] = cost_in(rest, l);
    }
    Ok(())
}
