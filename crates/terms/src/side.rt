// The sides of a quote or an order.
ghost use Rattle.std.specs.Prelude.{◌≡◌};

// Each with its number. Buys stand before sells where both are ranked.
#[derive(Clone, Copy, Debug, PartialEq, Eq, PartialOrd, Ord)]
pub enum Side {
    Buy = 1,
    Sell = 2,
}

// A number that is no side's.
#[derive(Clone, Copy, Debug, PartialEq, Eq)]
pub struct NoSide {
    pub number: u32,
}

impl TryFrom<u32> for Side {
    ghost use Rattle.terms.specs.Side.{side_read};

    type Error = NoSide;

    ghost try_from_gives = { λ number r. r ≡ side_read number };

    fn try_from(number: u32) -> Result<Side, NoSide> {
        match number {
            1 => Ok(Side::Buy),
            2 => Ok(Side::Sell),
            _ => Err(NoSide { number }),
        }
    }
}

impl From<Side> for u32 {
    ghost use Rattle.terms.specs.Side.{side_number};

    ghost from_gives = { λ side number. number ≡ side_number side };

    fn from(side: Side) -> u32 {
        side as u32
    }
}

impl Side {
    ghost use Rattle.terms.specs.Side.{other_side, better_price};

    pub fn other(self) -> Side
        ensures { result ≡ other_side self }
    {
        match self {
            Side::Buy => Side::Sell,
            Side::Sell => Side::Buy,
        }
    }

    // Whether a price is better than another: higher for buys, lower for sells.
    pub fn prefers(self, price: u32, other: u32) -> bool
        ensures { result ≡ better_price self price other }
    {
        match self {
            Side::Buy => price > other,
            Side::Sell => price < other,
        }
    }
}
