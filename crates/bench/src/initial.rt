// The parts of a fresh network.
ghost use Rattle.std.specs.Prelude.{◌≡◌, ◌*◌, ◌≤◌};
ghost use Rattle.agreement.specs.Call.{lent, SameTables};
ghost use Rattle.bench.specs.Private.Changes.{limit_tables, started_ends};
ghost use Rattle.bench.specs.Outcomes.{blank};

use crate::Bench;
use agreement::calls::start_end;
use agreement::sizes::ENDS;
use agreement::{LimitsMut, View};
use distances::sizes::MOST_BRIDGES;

// The limits of each end, from a view's offers.
pub(crate) fn start_ends(view: &View, limits: &mut LimitsMut)
    requires { view.now.graph.links ≤ 32 }
    ensures limits { limit_tables limits.new.sent.now limits.new.held.now ≡ started_ends (lent view.now) (2 * view.now.graph.links) (limit_tables limits.old.sent.now limits.old.held.now) }
    ensures same_tables { SameTables limits.old limits.new }
{
    for e in 0..2 * view.graph.links {
        // what is in range is not refused
        let _ = start_end(view, e, limits);
    }
}

// All but the counts and the ends starts anew.
pub(crate) fn clear(bench: &mut Bench)
    ensures { bench.new ≡ blank bench.old }
{
    bench.messages = 0;
    bench.view = [0; MOST_BRIDGES];
    bench.number = [1; MOST_BRIDGES];
    bench.records = [agreement::calls::fresh_record(); ENDS];
    bench.down = [false; ENDS];
}
