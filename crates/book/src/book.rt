// What a book of orders does, whatever keeps it.
ghost use Rattle.std.specs.Prelude.{◌≡◌, ℕ, ◌-◌, ◌<◌, List, [], length, is_ok, IfSome, IfNone};
ghost use Rattle.book.specs.declared.order.Order.{Order};
ghost use Rattle.book.specs.Orders.{Sound, can_add, added, find, lowest, first_of, First, can_cut, cut, can_wake, woken, lowest_waking};
ghost use Rattle.book.specs.Refusals.{unless, add_refusal, cut_refusal, wake_refusal};

use crate::order::Order;
use crate::refusal::BookRefusal;
use terms::Side;

// Any book: how many orders it can hold, 256 at most, and those that it holds, by number.
pub trait Book {
    ghost capacity: { Self → ℕ };

    ghost orders: { Self → List Order };

    // Takes an order in, unless there is no place left, its number stands already or it has no size.
    fn add(&mut self, order: Order) -> Result<(), BookRefusal>
        ensures answer { result ≡ unless (add_refusal (capacity self.old) order (orders self.old)) }
        ensures can { is_ok result ≡ can_add (capacity self.old) order (orders self.old) }
        ensures orders { orders self.new ≡ added (capacity self.old) order (orders self.old) }
        ensures capacity { capacity self.new ≡ capacity self.old }
        ensures sound { Sound (capacity self.new) (orders self.new) };

    // How many orders more it takes.
    fn free(&self) -> usize
        ensures answer { result ≡ capacity self.now - length (orders self.now) }
        ensures sound { Sound (capacity self.now) (orders self.now) };

    fn order(&self, number: u32) -> Option<Order>
        ensures { result ≡ find number (orders self.now) };

    // The lowest live number.
    fn lowest(&self) -> Option<u32>
        ensures { result ≡ lowest (orders self.now) };

    // The first in force of a side, by rank.
    fn first(&self, side: Side) -> Option<Order>
        ensures answer { result ≡ first_of side (orders self.now) }
        ensures law { First side (orders self.now) result };

    // Takes a size off an order, which is gone at 0, unless it is not live or has less left.
    fn cut(&mut self, number: u32, size: u32) -> Result<(), BookRefusal>
        ensures answer { result ≡ unless (cut_refusal number size (orders self.old)) }
        ensures can { is_ok result ≡ can_cut number size (orders self.old) }
        ensures orders { orders self.new ≡ cut number size (orders self.old) }
        ensures capacity { capacity self.new ≡ capacity self.old }
        ensures sound { Sound (capacity self.new) (orders self.new) };

    // Puts a waiting order in force at a moment.
    fn wake(&mut self, number: u32, moment: u32) -> Result<(), BookRefusal>
        ensures answer { result ≡ unless (wake_refusal number (orders self.old)) }
        ensures can { is_ok result ≡ can_wake number (orders self.old) }
        ensures orders { orders self.new ≡ woken number moment (orders self.old) }
        ensures capacity { capacity self.new ≡ capacity self.old }
        ensures sound { Sound (capacity self.new) (orders self.new) };

    // The lowest waiting number that two levels wake, which a struct for both would only hold to be taken apart.
    fn lowest_waking(&self, sells: Option<u32>, buys: Option<u32>) -> Option<u32>
        ensures { result ≡ lowest_waking sells buys (orders self.now) };

    // What holds of every book, whatever is done with it. Four functions say it too, for a caller that has a `dyn Book` alone.
    ghost sound: { (b : Self) → Sound (capacity b) (orders b) };
}

// The order of the lowest number. With its size cut off, the book holds fewer.
fn lowest_order<B: Book>(book: &B) -> Option<Order>
    ensures fewer { IfSome result (λ o. length (cut o.number o.left (B.Book.orders book.now)) < length (B.Book.orders book.now)) }
    ensures none { IfNone result (B.Book.orders book.now ≡ []) }
{
    book.order(book.lowest()?)
}

// Takes the orders out of any book, lowest number first.
pub fn empty<B: Book>(book: &mut B)
    ensures orders { B.Book.orders book.new ≡ [] }
    ensures capacity { B.Book.capacity book.new ≡ B.Book.capacity book.old }
{
    while let Some(order) = lowest_order(book) {
        // never refused: the order is live
        let _ = book.cut(order.number, order.left);
    }
}
