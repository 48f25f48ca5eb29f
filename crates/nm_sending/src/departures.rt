//! What became of a message that was sent.

ghost use Rattle.std.specs.Prelude.{◌≡◌, true, Some};
ghost use Rattle.nm_types.specs.declared.messages.How.TheVariants.{Eager};
ghost use Rattle.nm_sending.specs.Departures.{ending_of, fresh, is_over};
ghost use Rattle.nm_sending.specs.Rows.{is_settled as is_settled_lem, is_withdrawn as is_withdrawn_lem};
ghost use Rattle.nm_sending.specs.Rows.{with_recalled as with_recalled_lem};

use nm_types::{Answer, How};

/// What became of a message that was sent.
#[derive(Clone, Copy)]
pub struct Departure {
    pub how: How,
    /// Its length in bytes.
    pub len: u32,
    /// Whether it has left.
    pub out: bool,
    /// Whether its receiver was asked to withdraw it.
    pub recalled: bool,
    /// The answer to that, if it came back: whether the message was withdrawn.
    pub undone: Option<bool>,
}

impl Departure {
    /// A message that was just sent.
    pub fn new(how: How, len: u32) -> Self
        ensures { result ≡ fresh how len }
    {
        Departure {
            how,
            len,
            out: false,
            recalled: false,
            undone: None,
        }
    }

    /// Whether its send is complete.
    pub(crate) fn is_complete(&self) -> bool
        ensures { result ≡ is_over self.now }
    {
        if !self.recalled {
            return self.out;
        }
        match self.undone {
            Some(done) => done || self.out,
            None => false,
        }
    }

    /// What its send ended with, if it is complete.
    pub(crate) fn ending(&self) -> Option<Answer>
        ensures { result ≡ ending_of self.now }
    {
        if !self.is_complete() {
            return None;
        }
        match self.undone {
            Some(true) => Some(Answer::Cancelled),
            _ => Some(Answer::Sent),
        }
    }

    /// Whether it was recalled and withdrawn.
    fn is_withdrawn(&self) -> bool
        ensures { result ≡ is_withdrawn_lem self.now }
    {
        if !self.recalled {
            return false;
        }
        match self.undone {
            Some(done) => done,
            _ => false,
        }
    }

    /// Whether it has left, or never will: it was sent by asking and was withdrawn.
    pub(crate) fn is_settled(&self) -> bool
        ensures { result ≡ is_settled_lem self.now }
    {
        if self.out {
            return true;
        }
        match self.how {
            How::Eager => false,
            How::Ask => self.is_withdrawn(),
        }
    }

    /// The message when it has left.
    pub(crate) fn left(self) -> Self
        ensures { result ≡ record self { out = true } }
    {
        Departure { out: true, ..self }
    }

    /// A message that has left, without its way and its length.
    pub(crate) fn gone() -> Self
        ensures { result ≡ record (fresh Eager 0) { out = true } }
    {
        Departure::new(How::Eager, 0).left()
    }

    /// The message with its recall, if it was recalled, and with the answer to that, if it came back.
    pub(crate) fn with_recalled(self, recall: Option<Option<bool>>) -> Self
        ensures { result ≡ with_recalled_lem self recall }
    {
        let (recalled, undone) = match recall {
            Some(undone) => (true, undone),
            None => (false, None),
        };
        Departure {
            recalled,
            undone,
            ..self
        }
    }
}
