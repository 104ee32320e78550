// What ranks the entries of one side: the price, then the moment, then the number.
ghost use Rattle.std.specs.Prelude.{◌≡◌};
ghost use Rattle.rank.specs.PriceTime.{earlier, ranks_before};

use terms::Side;

#[derive(Clone, Copy)]
pub struct PriceTime {
    pub price: u32,
    pub moment: u32,
    pub number: u32,
}

impl PriceTime {
    // Whether it has the lower moment, or at the same moment the lower number.
    pub fn is_earlier(self, other: PriceTime) -> bool
        ensures { result ≡ earlier self other }
    {
        (self.moment, self.number) < (other.moment, other.number)
    }

    // Whether it has the better price on the side, or at the same price is earlier.
    pub fn ranks_before(self, other: PriceTime, side: Side) -> bool
        ensures { result ≡ ranks_before side self other }
    {
        side.prefers(self.price, other.price) || self.price == other.price && self.is_earlier(other)
    }
}
