// Why a call of a floorplan was refused, an enum for each call. The numbers and values are given in specs/. No program prints
// them, so they have no `Display`.
ghost use Rattle.std.specs.Prelude.{◌≡◌};
ghost use Rattle.floor_types.specs.Faults.{with_index};
ghost use Rattle.floor_types.specs.declared.faults.EntryFault.TheVariants.{Tables as entry_tables, Route as entry_route, Wire as entry_wire};
ghost use Rattle.floor_types.specs.declared.faults.OpeningFault.TheVariants.{Grid as opening_grid};
ghost use Rattle.floor_types.specs.declared.faults.PlanningFault.TheVariants.{Tables as planning_tables};
ghost use Rattle.floor_types.specs.declared.faults.FilingFault.TheVariants.{Tables as filing_tables, Plan as filing_plan};
ghost use Rattle.floor_types.specs.declared.faults.WithdrawalFault.TheVariants.{Tables as withdrawal_tables, Sites as withdrawal_sites};
ghost use Rattle.floor_types.specs.declared.faults.QuestionFault.TheVariants.{Tables as question_tables};

use grid::shape::GridFault;
use length_rule::PlanFault;
use net::records::record::RouteFault;
use stock::fault::StockFault;

// What every call but opening and sealing tests first: the net places at opening, where a table or a stock has another
// size than then; or the lowest net whose places hold what no call leaves there.
#[derive(Clone, Copy, PartialEq, Eq, Debug)]
pub enum TableFault {
    Sizes(usize),
    Net(usize),
}

#[derive(Clone, Copy, PartialEq, Eq, Debug)]
pub enum OpeningFault {
    Grid(GridFault),
    // The places that the stock has, which are not as many as tiles, or boundaries.
    SitePlaces(usize),
    WirePlaces(usize),
    // The lowest place in use.
    SiteInUse(usize),
    WireInUse(usize),
    // The record places, where they or the net places are not as many as a floorplan has.
    RecordPlaces(usize),
}

// No wire could be taken from this index towards its parent.
#[derive(Clone, Copy, PartialEq, Eq, Debug)]
pub struct WireFault {
    pub index: usize,
    pub fault: StockFault,
}

#[derive(Clone, Copy, PartialEq, Eq, Debug)]
pub enum EntryFault {
    Tables(TableFault),
    // All of so many net places are taken.
    NoRoom(usize),
    Route(RouteFault),
    Wire(WireFault),
}

#[derive(Clone, Copy, PartialEq, Eq, Debug)]
pub enum PlanningFault {
    Tables(TableFault),
    NoNet(usize),
    Planned(usize),
    // The work cells needed.
    Cells(usize),
    // This net has no legal plan.
    NoPlan(usize),
}

#[derive(Clone, Copy, PartialEq, Eq, Debug)]
pub enum FilingFault {
    Tables(TableFault),
    NoNet(usize),
    Planned(usize),
    Plan(PlanFault),
}

#[derive(Clone, Copy, PartialEq, Eq, Debug)]
pub enum WithdrawalFault {
    Tables(TableFault),
    NoNet(usize),
    Waits(usize),
    Sites(StockFault),
}

#[derive(Clone, Copy, PartialEq, Eq, Debug)]
pub enum QuestionFault {
    Tables(TableFault),
    NoNet(usize),
    Waits(usize),
    // The marks that the list should hold.
    Marks(usize),
}

// Each `From` is written by hand: one that `thiserror` derives has no contract, and clauses name the fault that `?` makes.
impl From<GridFault> for OpeningFault {
    ghost from_gives = { λ x r. r ≡ opening_grid x };

    fn from(fault: GridFault) -> OpeningFault {
        OpeningFault::Grid(fault)
    }
}

impl From<TableFault> for EntryFault {
    ghost from_gives = { λ x r. r ≡ entry_tables x };

    fn from(fault: TableFault) -> EntryFault {
        EntryFault::Tables(fault)
    }
}

impl From<RouteFault> for EntryFault {
    ghost from_gives = { λ x r. r ≡ entry_route x };

    fn from(fault: RouteFault) -> EntryFault {
        EntryFault::Route(fault)
    }
}

impl From<WireFault> for EntryFault {
    ghost from_gives = { λ x r. r ≡ entry_wire x };

    fn from(fault: WireFault) -> EntryFault {
        EntryFault::Wire(fault)
    }
}

impl From<TableFault> for PlanningFault {
    ghost from_gives = { λ x r. r ≡ planning_tables x };

    fn from(fault: TableFault) -> PlanningFault {
        PlanningFault::Tables(fault)
    }
}

impl From<TableFault> for FilingFault {
    ghost from_gives = { λ x r. r ≡ filing_tables x };

    fn from(fault: TableFault) -> FilingFault {
        FilingFault::Tables(fault)
    }
}

impl From<PlanFault> for FilingFault {
    ghost from_gives = { λ x r. r ≡ filing_plan x };

    fn from(fault: PlanFault) -> FilingFault {
        FilingFault::Plan(fault)
    }
}

impl From<TableFault> for WithdrawalFault {
    ghost from_gives = { λ x r. r ≡ withdrawal_tables x };

    fn from(fault: TableFault) -> WithdrawalFault {
        WithdrawalFault::Tables(fault)
    }
}

impl From<StockFault> for WithdrawalFault {
    ghost from_gives = { λ x r. r ≡ withdrawal_sites x };

    fn from(fault: StockFault) -> WithdrawalFault {
        WithdrawalFault::Sites(fault)
    }
}

impl From<TableFault> for QuestionFault {
    ghost from_gives = { λ x r. r ≡ question_tables x };

    fn from(fault: TableFault) -> QuestionFault {
        QuestionFault::Tables(fault)
    }
}

// What the stock answered, with the index for which it was asked.
pub fn at_index(answer: Result<(), StockFault>, index: usize) -> Result<(), WireFault>
    ensures { result ≡ with_index index answer }
{
    answer.map_err(|fault| WireFault { index, fault })
}
