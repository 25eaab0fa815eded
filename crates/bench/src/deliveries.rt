// A message at the end opposite to its sender, as layer 2 takes it there.
ghost use Rattle.std.specs.Prelude.{◌≡◌, true, [], ◌*◌, ◌≤◌, ◌<◌, length, get_or};
ghost use Rattle.bench.specs.State.{state_of, SameReferences};
ghost use Rattle.agreement.specs.Call.{response};
ghost use Rattle.bench.specs.Outcomes.{outcome};
ghost use Rattle.bench.specs.Private.Deliveries.{delivery_at, with_delivered, Takes};
ghost use Rattle.bench.specs.Private.Steps.{IsFilled};

use crate::sizes::COST_ROW;
use crate::tables::Distances;
use crate::{LentMut, ready};
use agreement::between::deliver_between;
use agreement::ready::opposite_end;
use agreement::{Across, Agreement, Answer};
use distances::Refusal;

// What a message carries, at an end that takes it, in the view of the end's bridge, whose distances are there.
pub(crate) fn receive(
    net: &mut LentMut,
    distances: &Distances,
    end: usize,
    message: Agreement,
) -> Result<Answer, Refusal>
    requires takes { (end < 64) × Takes (state_of net.old []) end message }
    requires lent { (get_or net.old.bench.now.ends end 0 < 16) × (get_or net.old.bench.now.view (get_or net.old.bench.now.ends end 0) 0 < 32) × (1024 ≤ length net.old.costs.now) }
    requires filled { IsFilled net.old.bench.now net.old.costs.now distances.now.numbers (get_or net.old.bench.now.view (get_or net.old.bench.now.ends end 0) 0) }
    ensures outcome { outcome (response result) (state_of net.new []) ≡ outcome (delivery_at (state_of net.old []) end message).reply (with_delivered (state_of net.old []) (delivery_at (state_of net.old []) end message)) }
    ensures same_references { SameReferences net.old net.new }
{
    ready::typed(net.bench);
    let bridge = net.bench.ends[end] as usize;
    let view = net.bench.view[bridge];
    let t = view as usize;
    let across = Across {
        bridges: net.bench.bridges,
        near: bridge,
        far: net.bench.ends[opposite_end(end)] as usize,
        cost: net.costs[COST_ROW * t + end / 2],
        table: distances.table(t),
    };
    let views = net.bench.views;
    let number = net.bench.number[bridge];
    deliver_between(
        &across,
        views,
        view,
        number,
        end,
        &mut net.bench.records[end],
        message,
        net.limits,
    )
}
