// The pair as a cost kind and as a pricing: the first decides, then the second, and firsts at the ceiling tie.
ghost use Rattle.cost.specs.Pairs.{pair, pair_plus, pair_at_most};
ghost use Rattle.std.specs.Prelude.{refl};
ghost use Rattle.laws.proofs.Ranking.{pair_laws};

use crate::costs::{Cost, Pricing, Strict};
use crate::pair::Pair;

impl<A: Strict, B: Cost> Cost for Pair<A, B> {
    type Cell = (A::Slot, B::Cell);

    ghost nothing = { pair A.Strict.nothing B.Cost.nothing };

    ghost plus = { pair_plus A.Strict.plus B.Cost.plus };

    ghost at_most = { pair_at_most A.Strict.at_most A.Strict.ceiling B.Cost.at_most };

    ghost stored = { λ x. (A.Strict.stored x.first, B.Cost.stored x.second) };

    ghost held = { λ c. pair (A.Strict.held c.0) (B.Cost.held c.1) };

    fn nothing() -> Pair<A, B> {
        Pair {
            first: A::nothing(),
            second: B::nothing(),
        }
    }

    fn plus(self, other: Pair<A, B>) -> Pair<A, B> {
        Pair {
            first: self.first.plus(other.first),
            second: self.second.plus(other.second),
        }
    }

    fn at_most(self, other: Pair<A, B>) -> bool {
        if !other.first.at_most(self.first) {
            return true;
        }
        if !self.first.at_most(other.first) {
            return false;
        }
        A::ceiling().at_most(self.first) || self.second.at_most(other.second)
    }

    fn to_cell(self) -> (A::Slot, B::Cell) {
        (self.first.to_slot(), self.second.to_cell())
    }

    fn from_cell(cell: (A::Slot, B::Cell)) -> Pair<A, B> {
        Pair {
            first: A::from_slot(cell.0),
            second: B::from_cell(cell.1),
        }
    }

    ghost lawful = { pair_laws A.Strict.lawful A.Strict.strict B.Cost.lawful (λ p. p.first) (λ p. p.second) pair (λ x y. refl) (λ x y. refl) (λ p. refl) };

    ghost kept = { λ x i. pair (A.Strict.kept x.first i) (B.Cost.kept x.second i) };
}

impl<A: Strict, B: Pricing> Pricing for Pair<A, B> {
    ghost priced = { λ capacity used share. (A.Strict.priced capacity used share, B.Pricing.priced capacity used share) };

    fn price(capacity: u16, used: u16, share: u32) -> Pair<A, B> {
        Pair {
            first: A::price(capacity, used, share),
            second: B::price(capacity, used, share),
        }
    }
}
