// The same through layers, on any stock.
// Each function makes its layer itself: one that took a function of the layer would owe a clause on that loan in place of
// one line.
ghost use Rattle.std.specs.Prelude.{◌≡◌};
ghost use Rattle.reserve.specs.Reserved.{reserved};
ghost use Rattle.stacks.specs.Stacked.{closed_over, drained};
ghost use Rattle.stacks.specs.Under.{one_closed};
ghost use Rattle.stock.specs.Calls.{spare_answer};

use crate::filling::take_spare;
use closure::closure::Closure;
use reserve::percent::Percent;
use reserve::reserve::Reserve;
use stock::fault::StockFault;
use stock::stock::Stock;

// Takes all that is spare under a reserve.
pub fn through_reserve<S: Stock>(
    stock: &mut S,
    percent: Percent,
    place: usize,
) -> Result<u16, StockFault>
    ensures answer { result ≡ spare_answer (reserved percent.value (S.meaning stock.old)) place }
    ensures after { S.meaning stock.new ≡ drained (reserved percent.value) (S.meaning stock.old) place }
    ensures kept { S.fixed stock.new ≡ S.fixed stock.old }
{
    let mut reserve = Reserve::new(stock, percent);
    take_spare(&mut reserve, place)
}

// A closure with one place closed, if there is such a place.
pub fn close_one<'b, S: Stock>(stock: &'b mut S, closed: usize) -> Closure<'b, S>
    ensures holds { result.below.now ≡ stock.old }
    ensures lender { result.below.ghost_name ≡ stock.entry.ghost_name }
    ensures marked { result.marks ≡ one_closed (S.meaning stock.old) closed }
{
    let mut closure = Closure::new(stock);
    let _ = closure.close(closed);
    closure
}

// Takes all that is spare at a place while one is closed.
pub fn through_closure<S: Stock>(
    stock: &mut S,
    closed: usize,
    place: usize,
) -> Result<u16, StockFault>
    ensures answer { result ≡ spare_answer (closed_over closed (S.meaning stock.old)) place }
    ensures after { S.meaning stock.new ≡ drained (closed_over closed) (S.meaning stock.old) place }
    ensures kept { S.fixed stock.new ≡ S.fixed stock.old }
{
    let mut closure = close_one(stock, closed);
    take_spare(&mut closure, place)
}
