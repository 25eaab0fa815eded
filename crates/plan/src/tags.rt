// The tags of a plan's fields, and the table of what they ask for.
ghost use Rattle.std.specs.Prelude.{◌≡◌, ◌≤◌};
ghost use Rattle.plan.specs.Sizes.{most_links};
ghost use Rattle.plan.specs.Tags.{row, may_come, length_fits, in_order, right_length, IsRow};
ghost use Rattle.plan.specs.Steps.{tag_number, TagReads};

use crate::sizes::COST_BYTES;
use distances::Refusal;

#[derive(Clone, Copy)]
pub(crate) enum Tag {
    BridgeCount = 1,
    Link = 2,
    View = 3,
    Update = 4,
    Send = 5,
    Deliver = 6,
    Repeat = 7,
    Lose = 8,
    Cut = 9,
    Restore = 10,
    Report = 11,
    Path = 12,
}

// Where in the plan a field may come: first of all, after the bridge count and before views or events, or after a view.
#[derive(Clone, Copy)]
enum Place {
    First,
    BeforeViews,
    BeforeEvents,
    AfterView,
}

// The length of its value: so many bytes, or a cost for each link.
#[derive(Clone, Copy)]
enum Length {
    Bytes(u8),
    CostPerLink,
}

#[derive(Clone, Copy)]
struct Rule(Place, Length);

impl TryFrom<u8> for Tag {
    type Error = Refusal;

    ghost try_from_gives = { TagReads };

    #[tactic(auto, unfolding(crate::specs::Tags::known, crate::specs::Tags::passes, crate::specs::Tags::tags))]
    fn try_from(number: u8) -> Result<Tag, Refusal> {
        match number {
            1 => Ok(Tag::BridgeCount),
            2 => Ok(Tag::Link),
            3 => Ok(Tag::View),
            4 => Ok(Tag::Update),
            5 => Ok(Tag::Send),
            6 => Ok(Tag::Deliver),
            7 => Ok(Tag::Repeat),
            8 => Ok(Tag::Lose),
            9 => Ok(Tag::Cut),
            10 => Ok(Tag::Restore),
            11 => Ok(Tag::Report),
            12 => Ok(Tag::Path),
            _ => Err(Refusal::UnknownTag),
        }
    }
}

impl Tag {
    #[tactic(auto, unfolding(crate::specs::Tags::passes, crate::specs::Tags::tags))]
    fn rule(self) -> Rule
        ensures { IsRow (tag_number self) (row (tag_number self) result.0 result.1) }
    {
        match self {
            Tag::BridgeCount => Rule(Place::First, Length::Bytes(1)),
            Tag::Link => Rule(Place::BeforeViews, Length::Bytes(2)),
            Tag::View => Rule(Place::BeforeEvents, Length::CostPerLink),
            Tag::Update => Rule(Place::AfterView, Length::Bytes(2)),
            Tag::Send => Rule(Place::AfterView, Length::Bytes(2)),
            Tag::Deliver => Rule(Place::AfterView, Length::Bytes(1)),
            Tag::Repeat => Rule(Place::AfterView, Length::Bytes(1)),
            Tag::Lose => Rule(Place::AfterView, Length::Bytes(1)),
            Tag::Cut => Rule(Place::AfterView, Length::Bytes(2)),
            Tag::Restore => Rule(Place::AfterView, Length::Bytes(2)),
            Tag::Report => Rule(Place::AfterView, Length::Bytes(1)),
            Tag::Path => Rule(Place::AfterView, Length::Bytes(2)),
        }
    }

    // May a field of this tag come at this stage of the plan?
    pub(crate) fn in_order(self, stage: usize) -> bool
        ensures { result ≡ in_order (tag_number self) stage }
    {
        self.rule().0.allows(stage)
    }

    // Is its value as long, where there are so many links?
    pub(crate) fn right_length(self, links: usize, length: usize) -> bool
        requires { links ≤ most_links }
        ensures { result ≡ right_length (tag_number self) links length }
    {
        self.rule().1.fits(links, length)
    }
}

impl Place {
    #[tactic(auto, unfolding(crate::specs::Tags::may_come))]
    fn allows(self, stage: usize) -> bool
        ensures { result ≡ may_come self stage }
    {
        match self {
            Place::First => stage == 0,
            Place::BeforeViews => stage == 1,
            Place::BeforeEvents => stage == 1 || stage == 2,
            Place::AfterView => 2 <= stage,
        }
    }
}

impl Length {
    #[tactic(auto, unfolding(crate::specs::Tags::length_fits))]
    fn fits(self, links: usize, length: usize) -> bool
        requires { links ≤ most_links }
        ensures { result ≡ length_fits self links length }
    {
        match self {
            Length::Bytes(n) => length == n as usize,
            Length::CostPerLink => length == COST_BYTES * links,
        }
    }
}
