ghost use Rattle.std.specs.Prelude.{◌≡◌, None};
ghost use Rattle.play.specs.Words.{reply_words};
ghost use Rattle.play.specs.declared.exchange.Reply.TheVariants.{Item};

use netlist::Refusal;
use std::fmt;

/// A call of a run, in a list of calls. Where a call works on the item table, `lent` says how many of its entries it is lent: all of
/// them, if it says more.
#[derive(Clone, Copy, PartialEq, Eq, Debug)]
pub enum Request {
    Prime { lent: usize },
    Hold(u8),
    Step { lent: usize },
    Firings(u8),
    Fill(u8),
    Front { channel: u8, lent: usize },
}

/// What a call says that is not refused.
#[derive(Clone, Copy, PartialEq, Eq, Debug)]
pub enum Reply<T> {
    /// The call was made.
    Done,
    /// Firings, or items in a channel.
    Number(u32),
    /// The oldest item of a channel, if it has one.
    Item(Option<T>),
}

// What a call says that asks for the oldest item of a channel.
impl<T> From<Option<T>> for Reply<T> {
    ghost from_gives = { λ item reply. reply ≡ Item item };

    fn from(item: Option<T>) -> Reply<T> {
        Reply::Item(item)
    }
}

impl<T: fmt::Display> fmt::Display for Reply<T> {
    ghost output = { λ x. reply_words T.output x };

    fn fmt<W: fmt::Write>(&self, f: &mut fmt::Formatter<W>) -> fmt::Result {
        match self {
            Reply::Done => write!(f, "done"),
            Reply::Number(n) => write!(f, "{n}"),
            Reply::Item(Some(item)) => write!(f, "item {item}"),
            Reply::Item(None) => write!(f, "empty"),
        }
    }
}

/// What a call answers.
pub type Answer<T> = Result<Reply<T>, Refusal>;

/// A request and its answer, which is `None` while the call was not made.
#[derive(Clone, Copy)]
pub struct Exchange<T> {
    pub request: Request,
    pub answer: Option<Answer<T>>,
}

impl<T> Exchange<T> {
    /// A request that is not answered yet.
    pub fn new(request: Request) -> Exchange<T>
        ensures { result ≡ record { request = request; answer = None } }
    {
        Exchange {
            request,
            answer: None,
        }
    }
}
