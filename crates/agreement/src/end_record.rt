// What becomes of an end's record and of its two rows, by the record alone.
ghost use Rattle.std.specs.Prelude.{◌≡◌, not, ◌&&◌};
ghost use Rattle.agreement.specs.Record.{updated, answer, recorded, is_stale, is_agreed, is_clearing};
ghost use Rattle.agreement.specs.Limits.{renewed};

use crate::{Agreement, Answer, EndRecord, Rewrite};

impl EndRecord {
    // The bridge goes to this view.
    #[tactic(auto, unfolding(crate::specs::Record::updated))]
    pub(crate) fn update(&mut self, to: u8)
        ensures { self.new ≡ updated to self.old }
    {
        if self.view == to {
            self.discarded = self.received;
            self.holding = true;
        }
    }

    // What the delivery of a message answers to a bridge on view `at`.
    #[tactic(auto, unfolding(crate::specs::Record::answer, crate::specs::Record::is_stale, crate::specs::Record::is_agreed))]
    pub(crate) fn answer(&self, at: u8, message: Agreement) -> Answer
        ensures { result ≡ answer at self.now message }
    {
        if message.number < self.received {
            return Answer::Stale;
        }
        if message.view == at {
            return Answer::Agreed(message.number, message.view);
        }
        Answer::Noted(message.number, message.view)
    }

    // The record after that answer.
    #[tactic(auto, unfolding(crate::specs::Record::recorded))]
    pub(crate) fn take(&mut self, answer: Answer)
        ensures { self.new ≡ recorded self.old answer }
    {
        match answer {
            Answer::Stale => {}
            Answer::Agreed(number, view) => {
                self.received = number;
                self.view = view;
                self.discarded = number;
                self.holding = true;
            }
            Answer::Noted(number, view) => {
                self.received = number;
                self.view = view;
            }
        }
    }

    // Does the message clear the sent limits of a bridge with this agreement number?
    #[tactic(auto, unfolding(crate::specs::Record::is_clearing, crate::specs::Record::is_stale))]
    pub(crate) fn is_clearing(&self, number: u16, message: Agreement) -> bool
        ensures { result ≡ is_clearing number self.now message }
    {
        self.received <= message.number && message.discarded == number
    }

    // Is the message's view the one held afterwards, for a bridge on view `at`?
    #[tactic(auto, unfolding(crate::specs::Record::is_stale, crate::specs::Record::is_agreed))]
    pub(crate) fn is_adopting(&self, at: u8, message: Agreement) -> bool
        ensures { result ≡ (not (is_stale self.now message) && is_agreed at message) }
    {
        self.received <= message.number && message.view == at
    }
}

// A row becomes the offers, or stays.
pub(crate) fn renew_if(test: bool) -> Rewrite
    ensures { result ≡ renewed test }
{
    if test { Rewrite::Renew } else { Rewrite::Keep }
}
