// Figures of stocks: what a reserve leaves, a closed place with a use, the last place and one past it, and taking
// nothing where nothing is left.
#![tactic(auto)]

#[cfg(test)]
mod tests {
    use closure::closure::Closure;
    use counted::counted::Counted;
    use counted::place::Place;
    use open_stock::wide::OpenStock;
    use reserve::percent::Percent;
    use reserve::reserve::Reserve;
    use std::process::Abort;
    use std::test::Fail;
    use stock::fault::StockFault;
    use stock::questions::spare;
    use stock::size::Size;
    use stock::stock::Stock;

    // What a reserve of so many percent leaves of a capacity.
    fn left(percent: usize, capacity: u16) -> Result<u16, StockFault> {
        let mut table = [Place { capacity, used: 0 }];
        let size = Counted::size_of(&table)?;
        let percent = Percent::new(percent)?;
        told_above(&mut Counted::new(&mut table, size), percent)
    }

    fn told_above<S: Stock>(below: &mut S, percent: Percent) -> Result<u16, StockFault> {
        Reserve::new(below, percent).capacity(0)
    }

    #[test]
    fn reserves_round_up(rt: HostRuntime) {
        let rows = [
            (0, [0, 1, 7, 65535]),
            (1, [0, 0, 6, 64879]),
            (50, [0, 0, 3, 32767]),
            (99, [0, 0, 0, 655]),
            (100, [0, 0, 0, 0]),
        ];
        for (percent, expected) in rows {
            for (capacity, expected) in [0, 1, 7, 65535].into_iter().zip(expected) {
                assert_eq!(rt; left(percent, capacity), Ok(expected));
            }
        }
        assert_eq!(rt; left(101, 1), Err(StockFault::TooLarge(101)));
    }

    // A place in use is closed: it tells no capacity and its use, and only giving back goes through.
    fn close_in_use<S: Stock>(rt: &impl Abort, below: &mut S) {
        assert_eq!(rt; below.take(1, 2), Ok(()));
        let mut sites = Closure::new(below);
        assert_eq!(rt; sites.close(1), Ok(()));
        assert_eq!(rt;
            (sites.capacity(1), sites.used(1), spare(&sites, 1)),
            (Ok(0), Ok(2), Ok(0))
        );
        assert_eq!(rt;
            sites.take(1, 0),
            Err(StockFault::Full(1)),
            "taking nothing above the capacity told"
        );
        assert_eq!(rt; sites.give_back(1, 0), Ok(()));
        assert_eq!(rt; sites.give_back(1, 3), Err(StockFault::Lacking(1)));
        assert_eq!(rt; sites.give_back(1, 2), Ok(()));
        assert_eq!(rt;
            sites.take(1, 0),
            Ok(()),
            "a closed place with nothing in use"
        );
        assert_eq!(rt; sites.reopen(1), Ok(()));
        assert_eq!(rt;
            (sites.capacity(1), sites.close(2), sites.reopen(2)),
            (
                Ok(5),
                Err(StockFault::NoPlace(2)),
                Err(StockFault::NoPlace(2)),
            )
        );
    }

    #[test]
    fn closed_place_with_a_use(rt: HostRuntime) -> Result<(), Fail> {
        let mut table = [Place {
            capacity: 5,
            used: 0,
        }; 2];
        let size = Counted::size_of(&table)?;
        close_in_use(&rt, &mut Counted::new(&mut table, size));
        Ok(())
    }

    #[test]
    fn last_place_and_one_past_it(rt: HostRuntime) -> Result<(), Fail> {
        let mut sites = OpenStock::new(8192)?;
        assert_eq!(rt; sites.places(), 8192);
        assert_eq!(rt; sites.take(8191, 65535), Ok(()));
        assert_eq!(rt; sites.take(8191, 1), Err(StockFault::Full(8191)));
        assert_eq!(rt;
            sites.take(8191, 0),
            Ok(()),
            "taking nothing at a full place"
        );
        assert_eq!(rt;
            (sites.capacity(8191), sites.used(8191)),
            (Ok(65535), Ok(65535))
        );
        assert_eq!(rt;
            (sites.capacity(8192), sites.used(8192)),
            (
                Err(StockFault::NoPlace(8192)),
                Err(StockFault::NoPlace(8192)),
            )
        );
        assert_eq!(rt;
            (sites.take(8192, 0), sites.give_back(8192, 0)),
            (
                Err(StockFault::NoPlace(8192)),
                Err(StockFault::NoPlace(8192)),
            )
        );
        Ok(())
    }

    #[test]
    fn sizes(rt: HostRuntime) -> Result<(), Fail> {
        assert_eq!(rt; Size::new(8192)?.places(), 8192);
        assert_eq!(rt;
            OpenStock::new(8193).err(),
            Some(StockFault::TooLarge(8193))
        );
        assert_eq!(rt; OpenStock::new(0)?.places(), 0);
        assert_eq!(rt;
            (
                StockFault::TooLarge(9).number(),
                StockFault::NoPlace(7).value(),
            ),
            (34, 7)
        );
        Ok(())
    }

    // A stock on the first two of three places clears and counts only those.
    #[test]
    fn first_places_of_a_table(rt: HostRuntime) -> Result<(), Fail> {
        let mut table = [Place {
            capacity: 4,
            used: 3,
        }; 3];
        let size = Size::new(2)?;
        assert_eq!(rt; Counted::again(&mut table, size).used(1), Ok(3));
        assert_eq!(rt; Counted::new(&mut table, size).take(1, 4), Ok(()));
        assert_eq!(rt;
            Counted::again(&mut table, size).used(2),
            Err(StockFault::NoPlace(2))
        );
        assert_eq!(rt; (table[0].used, table[1].used, table[2].used), (0, 4, 3));
        Ok(())
    }
}
