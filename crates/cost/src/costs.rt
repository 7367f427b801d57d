// The interfaces: a cost kind, a strict kind, a pricing.
ghost use Rattle.std.specs.Prelude.{◌≡◌, Bool, ℕ, ◌<◌};
ghost use Rattle.laws.specs.Laws.{CostLaws, StrictLaws, ReadsBack};

// A cost kind: a value called nothing, a sum and a comparison, whose ties need not be equal values, so that it is no order of
// the library. In a work cell a cost lies as plain numbers; it goes there and back by calls of its own, since `From` knows
// neither `stored` nor `held`.
pub trait Cost: Copy {
    type Cell: Copy;

    ghost nothing: { Self };

    ghost plus: { Self → Self → Self };

    ghost at_most: { Self → Self → Bool };

    ghost stored: { Self → Self.Cell };

    ghost held: { Self.Cell → Self };

    fn nothing() -> Self
        ensures { result ≡ nothing };

    fn plus(self, other: Self) -> Self
        ensures { result ≡ plus self other };

    fn at_most(self, other: Self) -> bool
        ensures { result ≡ at_most self other };

    fn to_cell(self) -> Self::Cell
        ensures { result ≡ stored self };

    fn from_cell(cell: Self::Cell) -> Self
        ensures { result ≡ held cell };

    ghost lawful: { CostLaws nothing plus at_most };

    ghost kept: { ReadsBack stored held };
}

// A strict kind has a ceiling below which a sum keeps what is strictly less. It stands alone, with the laws of a cost
// kind and a price among its own, so that a pair can ask for it and nothing else.
pub trait Strict: Copy {
    type Slot: Copy;

    ghost nothing: { Self };

    ghost plus: { Self → Self → Self };

    ghost at_most: { Self → Self → Bool };

    ghost ceiling: { Self };

    ghost stored: { Self → Self.Slot };

    ghost held: { Self.Slot → Self };

    ghost priced: { ℕ → ℕ → ℕ → Self.Slot };

    fn nothing() -> Self
        ensures { result ≡ nothing };

    fn plus(self, other: Self) -> Self
        ensures { result ≡ plus self other };

    fn at_most(self, other: Self) -> bool
        ensures { result ≡ at_most self other };

    fn ceiling() -> Self
        ensures { result ≡ ceiling };

    fn to_slot(self) -> Self::Slot
        ensures { result ≡ stored self };

    fn from_slot(slot: Self::Slot) -> Self
        ensures { result ≡ held slot };

    // The price of one site, where the capacity exceeds the use.
    fn price(capacity: u16, used: u16, share: u32) -> Self
        requires { used < capacity }
        ensures { stored result ≡ priced capacity used share };

    ghost lawful: { CostLaws nothing plus at_most };

    ghost strict: { StrictLaws plus at_most ceiling };

    ghost kept: { ReadsBack stored held };
}

// A pricing tells what one site costs. `priced` has the price as the plain numbers that the cost kind stores.
pub trait Pricing: Cost {
    ghost priced: { ℕ → ℕ → ℕ → Self.Cell };

    // The price of one site, where the capacity exceeds the use: the one thing that the rules let a call ask.
    fn price(capacity: u16, used: u16, share: u32) -> Self
        requires { used < capacity }
        ensures { Self.Cost.stored result ≡ priced capacity used share };
}
