// Quotes, ranked by price, then by moment, then by maker.
ghost use Rattle.std.specs.Prelude.{◌≡◌, Some};

use crate::refusal::BoardRefusal;
use rank::{PriceTime, Ranked, Slot};
use terms::Side;

// A maker's standing offer on one side of the board.
#[derive(Clone, Copy, Debug, PartialEq, Eq)]
pub struct Quote {
    pub maker: u32,
    pub price: u32,
    pub size: u32,
    pub moment: u32,
}

impl Quote {
    ghost use Rattle.board.specs.Board.{less, left_of};
    ghost use Rattle.board.specs.Ranks.{key, ranks_before};

    // What ranks it. No `From`: a quote says more.
    fn key(&self) -> PriceTime
        ensures { result ≡ key self.now }
    {
        PriceTime {
            price: self.price,
            moment: self.moment,
            number: self.maker,
        }
    }

    // Whether it ranks before another quote of the side.
    pub fn ranks_before(&self, other: &Quote, side: Side) -> bool
        ensures { result ≡ ranks_before side self.now other.now }
    {
        self.key().ranks_before(other.key(), side)
    }

    // What is left of it with so much less; nothing at size 0. As of an order, but of another field: a trait would be longer.
    pub fn less(self, size: u32) -> Option<Quote>
        ensures { result ≡ less size self }
    {
        (size < self.size).then(|| Quote {
            size: self.size - size,
            ..self
        })
    }

    // What is left of it when a size is taken from it, if it has that.
    pub(crate) fn taken(self, size: u32) -> Result<Option<Quote>, BoardRefusal>
        ensures { result ≡ left_of size self }
    {
        if self.size < size {
            return Err(BoardRefusal::TooLarge);
        }
        Ok(self.less(size))
    }
}

// A quote as an entry of its side.
#[derive(Clone, Copy)]
pub struct SideQuote {
    pub side: Side,
    pub quote: Quote,
}

impl Ranked for SideQuote {
    ghost use Rattle.board.specs.Orders.{entry_onward, entry_never, entry_decided};
    ghost use Rattle.board.specs.Ranks.{entry_before};

    ghost identity = { λ e. e.quote.maker };

    ghost before = { entry_before };

    ghost irreflexive = { entry_never };

    ghost transitive = { entry_onward };

    ghost decided = { entry_decided };

    // As orders do: one `impl` for all that has a side would bar entries that have none.
    fn precedes(&self, other: &SideQuote) -> bool {
        self.side < other.side
            || self.side == other.side && self.quote.ranks_before(&other.quote, self.side)
    }
}

// A quote takes part on whichever side is asked for: it lies in a list of that side.
impl Slot for Quote {
    ghost use Rattle.board.specs.Ranks.{entry_of};

    type Entry = SideQuote;

    type Pick = Side;

    ghost stands = { λ side q. Some (entry_of side q) };

    fn standing(&self, side: Side) -> Option<SideQuote> {
        Some(SideQuote { side, quote: *self })
    }
}
