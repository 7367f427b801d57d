// Neighbours, and the boundaries between them, through the tiles' rows and columns.
ghost use Rattle.std.specs.Prelude.{◌≡◌, ◌<◌, true};
ghost use Rattle.grid.specs.Tiles.{has_place};
ghost use Rattle.grid.specs.Boundaries.{one_apart, share_a_side, neighbours, boundary_count, boundary_at, boundary_between, BoundaryEitherWay, BoundaryCounted, BoundaryTellsPair, EachBoundaryHasPair};

use crate::shape::Grid;

fn one_apart(a: usize, b: usize) -> bool
    ensures { result ≡ one_apart a b }
{
    a.abs_diff(b) == 1
}

fn share_a_side(p: (usize, usize), q: (usize, usize)) -> bool
    ensures { result ≡ share_a_side p q }
{
    (p.0 == q.0 && one_apart(p.1, q.1)) || (p.1 == q.1 && one_apart(p.0, q.0))
}

impl Grid {
    // How many boundaries there are; their numbers lie below this, and each is that of a pair of neighbours.
    #[tactic(auto, using(crate::proofs::Pairs::each_has_pair))]
    pub fn boundary_count(self) -> usize
        ensures answer { result ≡ boundary_count self }
        ensures each { EachBoundaryHasPair self }
    {
        self.rows * (self.columns - 1) + (self.rows - 1) * self.columns
    }

    // Whether these are two tiles of the grid that share a side.
    pub fn neighbours(self, s: usize, t: usize) -> bool
        ensures { result ≡ neighbours self s t }
    {
        self.boundary_between(s, t).is_some()
    }

    // The boundary of two places that share a side: right of the left one, or below the upper one.
    fn boundary_at(self, p: (usize, usize), q: (usize, usize)) -> usize
        requires one { has_place self p ≡ true }
        requires other { has_place self q ≡ true }
        ensures { result ≡ boundary_at self p q }
    {
        if p.0 == q.0 {
            p.0 * (self.columns - 1) + p.1.min(q.1)
        } else {
            self.rows * (self.columns - 1) + p.0.min(q.0) * self.columns + p.1
        }
    }

    // The boundary between two tiles, whichever is named first, or None where they are no neighbours.
    pub fn boundary_between(self, s: usize, t: usize) -> Option<usize>
        ensures answer { result ≡ boundary_between self s t }
        ensures either_way { BoundaryEitherWay self }
        ensures counted { BoundaryCounted self }
        ensures tells_pair { BoundaryTellsPair self }
    {
        let p = self.place(s)?;
        let q = self.place(t)?;
        share_a_side(p, q).then(|| self.boundary_at(p, q))
    }
}
