// Figures of limits, routes and plans: each refusal, and of two that hold at once the one that is told.
#![tactic(auto)]

#[cfg(test)]
mod tests {
    use grid::shape::Grid;
    use hand_plan::check_plan;
    use length_rule::PlanFault;
    use net::limit::{Limit, LimitFault};
    use net::records::Route;
    use net::records::record::{Record, RouteFault};

    fn at(tile: u16, parent: u16, sink: bool) -> Record {
        Record { tile, parent, sink }
    }

    fn limit_fault(figure: usize) -> Option<LimitFault> {
        Limit::new(figure).err()
    }

    // On a grid of two rows of three tiles.
    fn route_fault(records: &[Record]) -> Option<RouteFault> {
        let grid = Grid::new(2, 3).ok()?;
        Route::check(grid, records).err()
    }

    // A driver in tile 0, tile 1, and beyond it the sinks 2 and 4.
    fn plan_fault(figure: usize, spare: &[u16], marks: &[u8]) -> Option<PlanFault> {
        let records = [
            at(0, 0, false),
            at(1, 0, false),
            at(2, 1, true),
            at(4, 1, true),
        ];
        let grid = Grid::new(2, 3).ok()?;
        let route = Route::check(grid, &records).ok()?;
        let limit = Limit::new(figure).ok()?;
        check_plan(limit, &route, spare, marks).err()
    }

    #[test]
    fn limits(rt: HostRuntime) {
        assert_eq!(rt; limit_fault(0), Some(LimitFault::Outside(0)));
        assert_eq!(rt; limit_fault(1), None);
        assert_eq!(rt; limit_fault(16), None);
        assert_eq!(rt; limit_fault(17), Some(LimitFault::Outside(17)));
    }

    #[test]
    fn routes(rt: HostRuntime) {
        assert_eq!(rt; route_fault(&[]), Some(RouteFault::Count(0)));
        assert_eq!(rt;
            route_fault(&[at(9, 9, false); 257]),
            Some(RouteFault::Count(257))
        );
        assert_eq!(rt;
            route_fault(&[at(6, 1, false)]),
            Some(RouteFault::OffGrid(0)),
            "off the grid before the parent"
        );
        assert_eq!(rt;
            route_fault(&[at(5, 1, false)]),
            Some(RouteFault::Parent(0))
        );
        assert_eq!(rt;
            route_fault(&[at(0, 0, true), at(4, 1, true)]),
            Some(RouteFault::Parent(1)),
            "the parent before the neighbour"
        );
        assert_eq!(rt;
            route_fault(&[at(0, 0, true), at(2, 0, true), at(9, 0, true)]),
            Some(RouteFault::Apart(1)),
            "the lower index"
        );
        assert_eq!(rt;
            route_fault(&[at(0, 0, true), at(1, 0, true), at(0, 1, true)]),
            Some(RouteFault::Repeated(2))
        );
        assert_eq!(rt;
            route_fault(&[at(0, 0, true), at(1, 0, false)]),
            Some(RouteFault::Useless(1))
        );
        assert_eq!(rt;
            route_fault(&[at(0, 0, false)]),
            Some(RouteFault::Useless(0))
        );
        assert_eq!(rt; route_fault(&[at(5, 0, true)]), None);
    }

    #[test]
    fn plans(rt: HostRuntime) {
        assert_eq!(rt; plan_fault(3, &[], &[0, 0, 0]), Some(PlanFault::Marks(4)));
        assert_eq!(rt; plan_fault(1, &[], &[1, 0, 0, 4]), Some(PlanFault::Mark(0)));
        assert_eq!(rt;
            plan_fault(1, &[], &[0, 0, 0, 4]),
            Some(PlanFault::Mark(3)),
            "a mark before a length"
        );
        assert_eq!(rt;
            plan_fault(2, &[], &[0, 0, 0, 0]),
            Some(PlanFault::Drives(0, 3))
        );
        assert_eq!(rt;
            plan_fault(2, &[], &[0, 1, 0, 0]),
            Some(PlanFault::Drives(1, 3)),
            "a length before a site"
        );
        assert_eq!(rt;
            plan_fault(1, &[], &[0, 2, 0, 0]),
            Some(PlanFault::Drives(1, 2))
        );
        assert_eq!(rt;
            plan_fault(1, &[2, 1], &[0, 3, 0, 0]),
            Some(PlanFault::Drives(1, 2)),
            "the head gate drives 1"
        );
        assert_eq!(rt;
            plan_fault(2, &[1, 0], &[0, 3, 0, 0]),
            Some(PlanFault::Sites(1))
        );
        assert_eq!(rt;
            plan_fault(2, &[], &[0, 3, 0, 0]),
            Some(PlanFault::Sites(0))
        );
        assert_eq!(rt; plan_fault(2, &[1, 1], &[0, 3, 0, 0]), None);
        assert_eq!(rt; plan_fault(3, &[], &[0, 0, 0, 0]), None);
    }
}
