// A board on which one maker is suspended.
ghost use Rattle.std.specs.Prelude.{◌≡◌};
ghost use Rattle.board.specs.Board.{lifting};
ghost use Rattle.board.specs.Kinds.{all_but};
ghost use Rattle.board.specs.Lawfuls.{all_but_lawful};

use crate::Board;
use crate::quote::Quote;
use crate::refusal::BoardRefusal;
use terms::Side;

// Admits those that the board below admits, but for one maker. The quotes are those below.
#[derive(Drop)]
pub struct Suspended<B> {
    below: B,
    maker: u32,
}

impl<B: Board> Suspended<B> {
    // Lifts the quotes of the suspended maker.
    pub fn new(mut below: B, maker: u32) -> Self
        ensures after { B.Board.sides result.below ≡ lifting maker (B.Board.sides below) }
        ensures makers { B.Board.admitted result.below ≡ B.Board.admitted below }
        ensures maker { result.maker ≡ maker }
    {
        below.lift(maker);
        Suspended { below, maker }
    }
}

impl<B: Board> Board for Suspended<B> {
    ghost admitted = { λ s. all_but (B.Board.admitted s.below) s.maker };

    ghost sides = { λ s. B.Board.sides s.below };

    ghost lawful = { λ s. all_but_lawful (B.Board.admitted s.below) (B.Board.sides s.below) s.maker (B.Board.lawful s.below) };

    fn admits(&self, maker: u32) -> bool {
        self.below.admits(maker) && maker != self.maker
    }

    fn put(&mut self, side: Side, quote: Quote) -> Result<(), BoardRefusal> {
        if !self.admits(quote.maker) {
            return Err(BoardRefusal::NotAdmitted);
        }
        self.below.put(side, quote)
    }

    fn lift(&mut self, maker: u32) {
        self.below.lift(maker);
    }

    fn best(&self, side: Side) -> Option<Quote> {
        self.below.best(side)
    }

    fn take(&mut self, side: Side, maker: u32, size: u32) -> Result<(), BoardRefusal> {
        self.below.take(side, maker, size)
    }

    fn clear(&mut self) {
        self.below.clear();
    }
}
