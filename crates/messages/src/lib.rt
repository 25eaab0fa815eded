// Messages in flight as a lent slice of structs. Each call is the bench's call on the slice's numbers, five for each message.
#![tactic(auto)]

ghost use Rattle.std.specs.Prelude.{◌≡◌, [], ◌∷◌, length};
ghost use Rattle.messages.specs.Slices.{numbers_in};

use bench::sizes::MESSAGE;

pub mod batches;
pub mod calls;
mod copies;
pub mod plain;

// As wide as the bench's five numbers of a message, so that the slice and its numbers hold the same.
#[derive(Clone, Copy)]
pub struct Message {
    pub link: u32,
    pub direction: u32,
    pub view: u32,
    pub number: u32,
    pub discarded: u32,
}

#[tactic(auto, unfolding(crate::specs::Slices::numbers_in), using(crate::proofs::Flight::five))]
impl From<[u32; MESSAGE]> for Message {
    ghost from_gives = { λ numbers m. numbers_in (m ∷ []) ≡ numbers };

    fn from([link, direction, view, number, discarded]: [u32; MESSAGE]) -> Message {
        Message {
            link,
            direction,
            view,
            number,
            discarded,
        }
    }
}

#[tactic(auto, unfolding(crate::specs::Slices::numbers_in))]
impl From<Message> for [u32; MESSAGE] {
    ghost from_gives = { λ m numbers. numbers ≡ numbers_in (m ∷ []) };

    fn from(m: Message) -> [u32; MESSAGE] {
        [m.link, m.direction, m.view, m.number, m.discarded]
    }
}
