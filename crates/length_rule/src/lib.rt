// The length rule: what hangs at an index of a route and what enters it, the gates of a plan, what its tiles need, which
// plans are legal and what a plan costs. The definitions stand in specs/, each reading as its rule does. The crate
// promises that the lengths are the rule's and no others, that the refusals of a plan made by hand leave exactly the
// legal plans, and what a tile needs. It uses nets and their routes.
#![tactic(auto)]

ghost use Rattle.std.specs.Prelude.{Some};
ghost use Rattle.length_rule.specs.Shown.{shown};

use std::error::Error;
use std::fmt;

// A gate of a plan: the length that it drives, and the index in whose tile it stands.
#[derive(Clone, Copy, PartialEq, Eq, Debug)]
pub struct Gate {
    pub drives: usize,
    pub stands: usize,
}

// The gates of an index. The driver is the gate of index 0; the others are the buffers that a mark sets.
#[derive(Clone, Copy, PartialEq, Eq, Debug)]
pub struct Gates {
    pub driver: Option<Gate>,
    pub head: Option<Gate>,
    pub trunk: Option<Gate>,
}

// Why a plan is refused: how many marks it should have, or the lowest index that breaks the rule, and at a gate the
// length that it drives.
#[derive(Clone, Copy, PartialEq, Eq, Debug)]
pub enum PlanFault {
    Marks(usize),
    Mark(usize),
    Drives(usize, usize),
    Sites(usize),
}

// The number of the refusal, then its values in words.
impl fmt::Display for PlanFault {
    ghost output = { λ fault. Some (shown fault) };

    fn fmt<W: fmt::Write>(&self, f: &mut fmt::Formatter<W>) -> fmt::Result {
        match self {
            PlanFault::Marks(needed) => write!(f, "19: {needed} marks needed"),
            PlanFault::Mark(index) => write!(f, "20: the mark of index {index}"),
            PlanFault::Drives(index, length) => {
                write!(f, "21: a gate of index {index} drives {length}")
            }
            PlanFault::Sites(index) => {
                write!(f, "22: the tile of index {index} needs more sites")
            }
        }
    }
}

impl Error for PlanFault {}
