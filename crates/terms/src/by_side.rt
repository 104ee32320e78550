// One thing for buys and one for sells.
ghost use Rattle.std.specs.Prelude.{◌≡◌};
ghost use Rattle.std.specs.Borrow.{sem};

use crate::side::Side;

#[derive(Clone, Copy, Drop)]
pub struct BySide<T> {
    pub buy: T,
    pub sell: T,
}

impl<T> BySide<T> {
    ghost use Rattle.terms.specs.BySide.{on_side, LendsSide};

    pub fn on(&self, side: Side) -> &T
        ensures { result.now ≡ on_side side self.now }
    {
        match side {
            Side::Buy => &self.buy,
            Side::Sell => &self.sell,
        }
    }

    // What is written through the answer stands on that side.
    pub fn on_mut(&mut self, side: Side) -> &mut T
        ensures* writes_back { sem 𝓛 (LendsSide T.row side self.entry result) }
        ensures value { result.now ≡ on_side side self.old }
    {
        match side {
            Side::Buy => &mut self.buy,
            Side::Sell => &mut self.sell,
        }
    }
}
