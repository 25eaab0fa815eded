// Layer 2: one bridge's agreement records and its forwarding choice. A call of `calls` is lent a view as `distances` has it: the graph, the
// view's costs, and the table that holds its distances; and the limit tables, a row of 16 limits for each end. Those of `between` and
// `choices` are lent what they look at of one end.
#![tactic(auto)]

ghost use Rattle.std.specs.Prelude.{◌≡◌};

pub mod between;
pub mod calls;
pub mod choices;
mod end_record;
mod ports;
pub mod ready;
mod rows;
pub mod sizes;

use distances::Graph;

// The record of a link end. `received` is the highest received number, `view` the view received with it (255: none),
// `discarded` the discarded number; `holding` says whether a view is held from the neighbour.
// `view` is no Option: the C interface has the number 255, and a contract speaks of every record.
#[derive(Clone, Copy)]
pub struct EndRecord {
    pub received: u16,
    pub discarded: u16,
    pub view: u8,
    pub holding: bool,
}

// A view: who joins whom, the cost of each link, and a table that holds the distances.
#[derive(Clone, Copy)]
pub struct View<'a> {
    pub graph: Graph<'a>,
    pub costs: &'a [u32],
    pub table: &'a [u32],
}

// The two tables of limits, a row of 16 for each end: sent limits and held limits.
#[derive(Clone, Copy)]
pub struct Limits<'a> {
    pub sent: &'a [u32],
    pub held: &'a [u32],
}

// The same tables, to be changed.
#[derive(Drop)]
pub struct LimitsMut<'a> {
    pub sent: &'a mut [u32],
    pub held: &'a mut [u32],
}

impl LimitsMut<'_> {
    // The same tables, to be read.
    pub fn shared(&self) -> Limits<'_>
        ensures sent { result.sent.now ≡ self.now.sent.now }
        ensures held { result.held.now ≡ self.now.held.now }
    {
        Limits {
            sent: self.sent,
            held: self.held,
        }
    }
}

// What the bridges know of their links, by end: whether the link is down there, its record, and the limits.
#[derive(Clone, Copy)]
pub struct Records<'a> {
    pub down: &'a [bool; 64],
    pub records: &'a [EndRecord; 64],
    pub limits: Limits<'a>,
}

// A link as it is seen from one of its ends: how many bridges there are, the bridge at the end, the bridge across, the link's cost, and the
// table that holds the distances of the end's view.
#[derive(Clone, Copy)]
pub struct Across<'a> {
    pub bridges: usize,
    pub near: usize,
    pub far: usize,
    pub cost: u32,
    pub table: &'a [u32],
}

// What the forwarding choice looks at of an end of the bridge: its link, the link's cost, the far bridge's distance, whether the link is down at
// this end, whether a view is held there, and the end's sent and held limits for the destination.
#[derive(Clone, Copy)]
pub struct LinkEnd {
    pub link: u8,
    pub cost: u32,
    pub far: u32,
    pub down: bool,
    pub holding: bool,
    pub sent: u32,
    pub held: u32,
}

// What a send carries: the sender's view and number, and the sending end's discarded number.
#[derive(Clone, Copy)]
pub struct Agreement {
    pub view: u8,
    pub number: u16,
    pub discarded: u16,
}

// What a delivery answers, with the number and view that it took.
#[derive(Clone, Copy)]
pub enum Answer {
    Stale,
    Agreed(u16, u8),
    Noted(u16, u8),
}

// The forwarding port of a bridge for a destination: the link that it forwards on, None where it is closed.
pub type Port = Option<u8>;

// What the forwarding rule says of a bridge's port for a destination: the first condition that holds the port shut, with the link concerned, or
// that it forwards, and on which link. `NoLink`: no link reaches the bridge's distance. By all of a bridge's ends that is said only where the lent
// distances are not those of the view.
#[derive(Clone, Copy)]
pub enum Verdict {
    IsDestination,
    NoPath,
    NoLink,
    LinkDown(u8),
    NothingHeld(u8),
    HeldTooGreat(u8),
    SentNotAbove(u8),
    Forwards(u8),
}

// The forwarding choice of a bridge by some of its ends: the bridge's distance; whether the bridge is the destination; whether some end reaches the
// distance, and of the first such end its link, whether it is down, whether a view is held there, and the held limit as it was handed in, which counts
// only where a view is held; whether at some end that is up the sent limit is not above the distance, and the link of the first such end.
// `found` and `barred` make no Option of what they tell of: the contract of `verdict_by` speaks of every choice.
#[derive(Clone, Copy)]
pub struct Choice {
    pub distance: u32,
    pub held: u32,
    pub link: u8,
    pub barring: u8,
    pub destination: bool,
    pub found: bool,
    pub down: bool,
    pub holding: bool,
    pub barred: bool,
}

// What becomes of a row of limits: it stays, each limit is lowered to the offer, becomes the offer, or becomes NONE.
// Four kinds and no closure: `limit_after`, by which every contract of a row goes, has a case for each.
#[derive(Clone, Copy)]
pub enum Rewrite {
    Keep,
    Lower,
    Renew,
    Empty,
}
