// Journals at work: their limits, their bytes, and what drop frees.
#![tactic(auto)]

#[cfg(test)]
mod tests {
    use metering::curve::Curve;
    use metering::reading::Reading;
    use std::alloc::{AllocError, Global};
    use std::test::Fail;
    use stores::fault::StoreFault;
    use stores::journal::{Journal, journal_fits};
    use stores::store::Store;

    // A memory that is not clean.
    fn used(heap: Global, bytes: usize) -> Result<Vec<u8>, AllocError> {
        vec![in heap; 7u8; bytes]
    }

    // -1 Wh, a thousand kWh, then estimated.
    fn sample() -> Curve {
        let mut curve = Curve::blank();
        curve.place(0, Reading::Measured(-1));
        curve.place(1, Reading::Measured(1_000_000));
        curve
    }

    // The byte at a place of a journal's memory; 255 past its end.
    fn byte(journal: &Journal, at: usize) -> u8 {
        journal.memory().get(at).copied().unwrap_or(255)
    }

    fn zeros(journal: &Journal, from: usize) -> bool {
        let rest = journal.memory().get(from..);
        rest.is_some_and(|bytes| bytes.iter().all(|byte| *byte == 0))
    }

    #[test]
    fn what_fits(rt: HostRuntime) {
        assert_eq!(rt; journal_fits(386, 1), Err(StoreFault::Unfit));
        assert_eq!(rt; journal_fits(387, 0), Err(StoreFault::Unfit));
        assert_eq!(rt; journal_fits(387, 33), Err(StoreFault::Unfit));
        assert_eq!(rt; journal_fits(387, 1), Ok(()));
        assert_eq!(rt; journal_fits(774, 32), Ok(()));
    }

    #[test]
    fn a_row_for_each_387_bytes(rt: HostRuntime) -> Result<(), Fail> {
        assert_eq!(rt; Journal::new(used(rt.alloc(), 773)?, 1).capacity(), 1);
        assert_eq!(rt; Journal::new(used(rt.alloc(), 774)?, 1).capacity(), 2);
        Ok(())
    }

    #[test]
    fn refused_making(rt: HostRuntime) -> Result<(), Fail> {
        let mut journal = Journal::new(used(rt.alloc(), 386)?, 2);
        assert_eq!(rt; journal.width(), 1);
        assert_eq!(rt; journal.span(), 1);
        assert_eq!(rt; journal.capacity(), 0);
        let curve = sample();
        let full = StoreFault::Full {
            resource: 0,
            day: 0,
        };
        assert_eq!(rt; journal.put(0, 0, &curve), Err(full));
        assert_eq!(rt; journal.drop_before(5), Ok(()));
        assert_eq!(rt; journal.floor(), 5);
        let memory = journal.into_memory();
        assert!(rt; memory.len() == 386);
        assert_eq!(rt; memory[0], 7);
        assert_eq!(rt; memory[385], 7);
        Ok(())
    }

    #[test]
    fn one_row(rt: HostRuntime) -> Result<(), Fail> {
        let mut journal = Journal::new(used(rt.alloc(), 387)?, 3);
        assert!(rt; zeros(&journal, 0));
        assert_eq!(rt; journal.capacity(), 1);
        assert_eq!(rt; journal.span(), 36_525);
        let curve = sample();
        assert_eq!(rt; journal.put(0, 36_525, &curve), Err(StoreFault::Day));
        let wide = StoreFault::Resource {
            resource: 3,
            day: 0,
        };
        assert_eq!(rt; journal.put(3, 0, &curve), Err(wide));
        assert_eq!(rt; journal.put(2, 0, &curve), Ok(()));
        let held = StoreFault::Held {
            resource: 2,
            day: 0,
        };
        assert_eq!(rt; journal.put(2, 0, &curve), Err(held));
        let full = StoreFault::Full {
            resource: 1,
            day: 0,
        };
        assert_eq!(rt; journal.put(1, 0, &curve), Err(full));
        assert_eq!(rt; journal.held_from(0), 1);
        assert_eq!(rt; journal.held_from(1), 0);
        // the last day of the calendar takes the place of the first
        assert_eq!(rt; journal.drop_before(36_525), Err(StoreFault::Day));
        assert_eq!(rt; journal.drop_before(36_524), Ok(()));
        assert!(rt; zeros(&journal, 0));
        let under = StoreFault::UnderFloor {
            resource: 1,
            day: 36_523,
        };
        assert_eq!(rt; journal.put(1, 36_523, &curve), Err(under));
        assert_eq!(rt; journal.put(1, 36_524, &curve), Ok(()));
        assert_eq!(rt; journal.floor(), 36_524);
        assert!(rt; journal.holds(1, 36_524));
        assert!(rt; !journal.holds(2, 0));
        Ok(())
    }

    #[test]
    fn bytes_of_a_row(rt: HostRuntime) -> Result<(), Fail> {
        let mut journal = Journal::new(used(rt.alloc(), 387)?, 32);
        assert_eq!(rt; journal.put(31, 9_675, &sample()), Ok(()));
        assert_eq!(rt; byte(&journal, 0), 31);
        assert_eq!(rt; byte(&journal, 1), 37);
        assert_eq!(rt; byte(&journal, 2), 203);
        assert_eq!(rt; byte(&journal, 3), 255);
        assert_eq!(rt; byte(&journal, 6), 255);
        assert_eq!(rt; byte(&journal, 7), 0);
        assert_eq!(rt; byte(&journal, 8), 15);
        assert_eq!(rt; byte(&journal, 9), 66);
        assert_eq!(rt; byte(&journal, 10), 64);
        assert_eq!(rt; byte(&journal, 383), 128);
        assert_eq!(rt; byte(&journal, 386), 0);
        let last = Some(Reading::Estimated);
        assert_eq!(rt; journal.reading(31, 9_675, 0), Some(Reading::Measured(-1)));
        assert_eq!(rt; journal.reading(31, 9_675, 95), last);
        assert_eq!(rt; journal.reading(31, 9_675, 96), None);
        assert_eq!(rt; journal.reading(30, 9_675, 0), None);
        let Some(curve) = journal.curve(31, 9_675) else {
            return Err(Fail::new("no curve"));
        };
        assert_eq!(rt; curve.reading(1), Some(Reading::Measured(1_000_000)));
        Ok(())
    }

    // Two rows and a tail that is shorter than one.
    #[test]
    fn gaps_close(rt: HostRuntime) -> Result<(), Fail> {
        let mut journal = Journal::new(used(rt.alloc(), 1_160)?, 2);
        assert_eq!(rt; journal.capacity(), 2);
        let curve = sample();
        assert_eq!(rt; journal.put(0, 3, &curve), Ok(()));
        assert_eq!(rt; journal.put(1, 5, &curve), Ok(()));
        let full = StoreFault::Full {
            resource: 0,
            day: 4,
        };
        assert_eq!(rt; journal.put(0, 4, &curve), Err(full));
        assert!(rt; zeros(&journal, 774));
        assert_eq!(rt; journal.drop_before(4), Ok(()));
        assert_eq!(rt; byte(&journal, 0), 1);
        assert_eq!(rt; byte(&journal, 2), 5);
        assert!(rt; zeros(&journal, 387));
        assert_eq!(rt; journal.put(0, 4, &curve), Ok(()));
        assert_eq!(rt; byte(&journal, 387), 0);
        assert_eq!(rt; byte(&journal, 389), 4);
        assert_eq!(rt; journal.drop_before(0), Ok(()));
        assert_eq!(rt; journal.floor(), 4);
        assert_eq!(rt; journal.held_from(5), 1);
        Ok(())
    }
}
