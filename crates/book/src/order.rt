// Orders and their rank: those without a price limit first; then by price, moment and number.
ghost use Rattle.std.specs.Prelude.{◌≡◌, ◌-◌, ◌<◌, ◌≤◌, MatchOption};

use rank::{PriceTime, Ranked};
use terms::Side;

// What a member asks for, by its number. A one-cancels-the-other call makes a limit and a trigger market.
#[derive(Clone, Copy, Debug, PartialEq, Eq)]
pub enum Kind {
    Limit = 1,
    IcLimit = 2,
    IcMarket = 3,
    TriggerMarket = 4,
    TriggerLimit = 5,
    LossCut = 6,
}

impl Kind {
    ghost use Rattle.book.specs.Ranks.{kind_number, limited};

    pub fn number(&self) -> u32
        ensures { result ≡ kind_number self.now }
    {
        *self as u32
    }

    // Whether it has a price limit.
    pub fn is_limited(&self) -> bool
        ensures { result ≡ limited self.now }
    {
        matches!(self, Kind::Limit | Kind::IcLimit | Kind::TriggerLimit)
    }
}

// An order of the book, with the numbers that the rules give every order: a price, a trigger or a mate that it does not have is 0.
#[derive(Clone, Copy, Debug, PartialEq, Eq)]
pub struct Order {
    pub number: u32,
    pub owner: u32,
    pub kind: Kind,
    pub side: Side,
    pub price: u32,
    pub trigger: u32,
    pub left: u32,
    pub moment: u32,
    pub mate: u32,
    pub waiting: bool,
}

impl Order {
    ghost use Rattle.book.specs.Orders.{with_left, woken_at, wakes};
    ghost use Rattle.book.specs.Ranks.{key, ranks_before};

    // What ranks it among its like. No `From`: an order says more.
    fn key(&self) -> PriceTime
        ensures { result ≡ key self.now }
    {
        PriceTime {
            price: self.price,
            moment: self.moment,
            number: self.number,
        }
    }

    // Whether it ranks before another order of the side.
    pub fn ranks_before(&self, other: &Order, side: Side) -> bool
        ensures { result ≡ ranks_before side self.now other.now }
    {
        // four cases, since each of two that are alike compares by another rule
        match (self.kind.is_limited(), other.kind.is_limited()) {
            (false, false) => self.key().is_earlier(other.key()),
            (false, true) => true,
            (true, false) => false,
            (true, true) => self.key().ranks_before(other.key(), side),
        }
    }

    // In force from a moment on.
    pub fn woken(&self, moment: u32) -> Order
        ensures { result ≡ woken_at moment self.now }
    {
        Order {
            moment,
            waiting: false,
            ..*self
        }
    }

    // With a size off what is left; None where nothing is left then. As of a quote, but of another field: a trait would be longer.
    pub fn less(&self, size: u32) -> Option<Order>
        ensures { MatchOption result (self.now.left ≤ size) (λ o. (size < self.now.left) × (o ≡ with_left (self.now.left - size) self.now)) }
    {
        (size < self.left).then(|| Order {
            left: self.left - size,
            ..*self
        })
    }

    // Whether two levels, as `Book::lowest_waking` is given them, wake it: a sell with its trigger at or above the first, a buy with its own at or below the second.
    pub fn wakes(&self, sells: Option<u32>, buys: Option<u32>) -> bool
        ensures { result ≡ wakes sells buys self.now }
    {
        let reached = match self.side {
            Side::Sell => sells.is_some_and(|level| level <= self.trigger),
            Side::Buy => buys.is_some_and(|level| self.trigger <= level),
        };
        self.waiting && reached
    }
}

impl Ranked for Order {
    ghost use Rattle.book.specs.OrderRank.{before_never, before_onward, before_decided};
    ghost use Rattle.book.specs.Ranks.{order_before};

    ghost identity = { λ o. o.number };

    ghost before = { order_before };

    ghost irreflexive = { before_never };

    ghost transitive = { before_onward };

    ghost decided = { before_decided };

    // As quotes do: one `impl` for all that has a side would bar entries that have none.
    fn precedes(&self, other: &Order) -> bool {
        self.side < other.side || self.side == other.side && self.ranks_before(other, self.side)
    }
}

// No order: what fills the free places of an `ArrayVec`, which asks for a `Default`.
impl Default for Order {
    ghost use Rattle.book.specs.Orders.{no_order};

    ghost is_default = { λ o. o ≡ no_order };

    fn default() -> Order {
        Order {
            number: 0,
            owner: 0,
            kind: Kind::Limit,
            side: Side::Buy,
            price: 0,
            trigger: 0,
            left: 0,
            moment: 0,
            mate: 0,
            waiting: false,
        }
    }
}
