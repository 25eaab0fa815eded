// The verdict on the port of a bridge: the choice by all its ends.
ghost use Rattle.std.specs.Prelude.{◌≡◌, ◌<◌, get_or};
ghost use Rattle.distances.specs.View.{costs_of};
ghost use Rattle.distances.specs.Table.{cell};
ghost use Rattle.agreement.specs.Record.{fresh_record};
ghost use Rattle.agreement.specs.Forwarding.{verdict};
ghost use Rattle.agreement.specs.Call.{lent, lent_graph, known};
ghost use Rattle.agreement.specs.Choice.{link_end};
ghost use Rattle.agreement.specs.Steps.{EndListed, PortReady};

use crate::ready::opposite_end;
use crate::{EndRecord, LinkEnd, Records, Verdict, View, choices};
use distances::sizes::ROW;

pub(crate) fn verdict_of(view: &View, records: &Records, bridge: usize, dest: usize) -> Verdict
    requires { PortReady (lent view.now) records.now.limits.sent.now records.now.limits.held.now bridge dest }
    ensures { result ≡ verdict (lent_graph (lent view.now)) (costs_of view.now.costs.now) (cell view.now.table.now) (known records.now) bridge dest }
{
    let own = view.table[ROW * bridge + dest];
    let mut choice = choices::first_choice(own, bridge == dest);
    for e in 0..2 * view.graph.links {
        if view.graph.ends[e] as usize == bridge {
            let end = end_of(view, records, e, dest);
            choice = choices::choice_with(&choice, &end);
        }
    }
    choices::chosen_verdict(&choice)
}

// Is a view held at this end? A function of its own: a proof knows the length of an array that is a parameter.
fn is_holding(records: &[EndRecord; 64], end: usize) -> bool
    requires { end < 64 }
    ensures { result ≡ (get_or records.now end fresh_record).holding }
{
    records[end].holding
}

// What the choice looks at of this end, for a destination.
#[tactic(auto, unfolding(distances::specs::Table::cell))]
fn end_of(view: &View, records: &Records, end: usize, dest: usize) -> LinkEnd
    requires ready { EndListed (lent view.now) records.now.limits.sent.now records.now.limits.held.now end }
    requires dest_bound { dest < view.now.graph.bridges }
    ensures { result ≡ link_end (lent_graph (lent view.now)) (costs_of view.now.costs.now) (cell view.now.table.now) (known records.now) dest end }
{
    let far = view.graph.ends[opposite_end(end)] as usize;
    LinkEnd {
        link: (end / 2) as u8,
        cost: view.costs[end / 2],
        far: view.table[ROW * far + dest],
        down: records.down[end],
        holding: is_holding(records.records, end),
        sent: records.limits.sent[ROW * end + dest],
        held: records.limits.held[ROW * end + dest],
    }
}
