// Hosts that stack layers over a lent table and over an open stock. Which layer lies on which is the order of two lines, so
// each order has a function of its own.
ghost use Rattle.std.specs.Prelude.{◌≡◌};
ghost use Rattle.counted.specs.Table.{of_table, rest};
ghost use Rattle.stacks.specs.Stacked.{closure_on_reserve, drained, open_answer, reserve_on_closure};
ghost use Rattle.stock.specs.Calls.{spare_answer};

use crate::layered::{close_one, through_closure, through_reserve};
use crate::layers::Layers;
use counted::counted::Counted;
use counted::place::Place;
use open_stock::wide::OpenStock;
use reserve::reserve::Reserve;
use stock::fault::StockFault;
use stock::size::Size;
use stock::stock::Stock;

// A closure over a reserve over any stock.
pub fn closure_over_reserve<S: Stock>(
    stock: &mut S,
    layers: Layers,
    place: usize,
) -> Result<u16, StockFault>
    ensures answer { result ≡ spare_answer (closure_on_reserve layers.percent.value layers.closed (S.meaning stock.old)) place }
    ensures after { S.meaning stock.new ≡ drained (closure_on_reserve layers.percent.value layers.closed) (S.meaning stock.old) place }
    ensures kept { S.fixed stock.new ≡ S.fixed stock.old }
{
    let mut reserve = Reserve::new(stock, layers.percent);
    through_closure(&mut reserve, layers.closed, place)
}

// A reserve over a closure over any stock.
pub fn reserve_over_closure<S: Stock>(
    stock: &mut S,
    layers: Layers,
    place: usize,
) -> Result<u16, StockFault>
    ensures answer { result ≡ spare_answer (reserve_on_closure layers.percent.value layers.closed (S.meaning stock.old)) place }
    ensures after { S.meaning stock.new ≡ drained (reserve_on_closure layers.percent.value layers.closed) (S.meaning stock.old) place }
    ensures kept { S.fixed stock.new ≡ S.fixed stock.old }
{
    let mut closure = close_one(stock, layers.closed);
    through_reserve(&mut closure, layers.percent, place)
}

// A closure over a reserve over a counted stock that is made again over its table, which then holds the new uses.
pub fn over_table(
    table: &mut [Place],
    size: Size,
    layers: Layers,
    place: usize,
) -> Result<u16, StockFault>
    ensures answer { result ≡ spare_answer (closure_on_reserve layers.percent.value layers.closed (of_table size.places table.old)) place }
    ensures after { of_table size.places table.new ≡ drained (closure_on_reserve layers.percent.value layers.closed) (of_table size.places table.old) place }
    ensures past { rest size.places table.new ≡ rest size.places table.old }
{
    let mut counted = Counted::again(table, size);
    closure_over_reserve(&mut counted, layers, place)
}

// A reserve over a closure over an open stock of so many places.
pub fn over_open(places: usize, layers: Layers, place: usize) -> Result<u16, StockFault>
    ensures { result ≡ open_answer places layers.percent.value layers.closed place }
{
    let mut open = OpenStock::new(places)?;
    reserve_over_closure(&mut open, layers, place)
}
