// Rings and keepers on small and on largest sizes.
#![tactic(auto)]

use metering::curve::Curve;
use metering::reading::Reading;
use std::alloc::{AllocError, Global};
use std::test::Fail;
use stores::fault::StoreFault;
use stores::keeper::{Keeper, keeper_fits};
use stores::ring::{Ring, ring_fits};
use stores::store::Store;

// A ring in memory that was not zero.
fn ring_of(heap: Global, width: u16, span: u16) -> Result<Ring, AllocError> {
    let words = vec![in heap; 3i32; 97 * (width as usize * span as usize)]?;
    Ok(Ring::new(words, width as u32, span as u32))
}

// The number of the refusal, or 0, as the expected values below have it.
fn number(answer: Result<(), StoreFault>) -> u32 {
    answer.map_or_else(|fault| fault.refusal().number as u32, |()| 0)
}

// Puts a curve that is estimated but for its first quarter.
fn put<S: Store>(store: &mut S, resource: u32, day: u32, wh: i32) -> u32 {
    let mut curve = Curve::blank();
    curve.place(0, Reading::Measured(wh));
    number(store.put(resource, day, &curve))
}

// The reading of a quarter, 9,999 where it is estimated and 0 where nothing is held.
fn wh<S: Store>(store: &S, resource: u32, day: u32, quarter: u32) -> i32 {
    match store.reading(resource, day, quarter) {
        Some(Reading::Measured(wh)) => wh,
        Some(Reading::Estimated) => 9_999,
        None => 0,
    }
}

fn shape<S: Store>(store: &S) -> [u32; 5] {
    [
        store.width(),
        store.capacity(),
        store.span(),
        store.floor(),
        store.held_from(0),
    ]
}

#[test]
fn floors_move(rt: HostRuntime) -> Result<(), Fail> {
    let mut ring = ring_of(rt.alloc(), 2, 3)?;
    let puts = [
        put(&mut ring, 0, 0, 10),
        put(&mut ring, 0, 2, 12),
        put(&mut ring, 1, 2, 22),
    ];
    assert_eq!(rt; puts, [0, 0, 0]);
    assert_eq!(rt; shape(&ring), [2, 6, 3, 0, 3]);
    assert_eq!(rt; put(&mut ring, 1, 3, 23), 0);
    assert_eq!(rt; shape(&ring), [2, 6, 3, 1, 3]);
    assert_eq!(rt; [ring.held_from(3), ring.held_from(4)], [1, 0]);
    let held = [wh(&ring, 0, 0, 0), wh(&ring, 0, 2, 0), wh(&ring, 1, 3, 0)];
    assert_eq!(rt; held, [0, 12, 23]);
    assert_eq!(rt; [wh(&ring, 0, 2, 95), wh(&ring, 0, 2, 96)], [9_999, 0]);
    Ok(())
}

#[test]
fn refusals_in_turn(rt: HostRuntime) -> Result<(), Fail> {
    let mut ring = ring_of(rt.alloc(), 2, 3)?;
    let puts = [
        put(&mut ring, 0, 7, 1),
        put(&mut ring, 2, 36_525, 1),
        put(&mut ring, 2, 4, 1),
        put(&mut ring, 0, 4, 1),
        put(&mut ring, 0, 7, 1),
    ];
    assert_eq!(rt; puts, [0, 14, 10, 11, 12]);
    assert_eq!(rt; number(ring.drop_before(36_525)), 14);
    assert_eq!(rt; shape(&ring), [2, 6, 3, 5, 1]);
    Ok(())
}

#[test]
fn words_of_a_slot(rt: HostRuntime) -> Result<(), Fail> {
    let mut ring = ring_of(rt.alloc(), 2, 3)?;
    assert_eq!(rt; put(&mut ring, 1, 4, -25), 0);
    let words = ring.into_memory();
    assert!(rt; words.len() == 582);
    let around = [
        words[387], words[388], words[389], words[390], words[484], words[485],
    ];
    assert_eq!(rt; around, [0, 5, -25, i32::MIN, i32::MIN, 0]);
    Ok(())
}

#[test]
fn one_day(rt: HostRuntime) -> Result<(), Fail> {
    let mut ring = ring_of(rt.alloc(), 1, 1)?;
    assert_eq!(rt; [put(&mut ring, 0, 5, 5), put(&mut ring, 0, 6, 6)], [0, 0]);
    assert_eq!(rt; shape(&ring), [1, 1, 1, 6, 1]);
    assert_eq!(rt; [wh(&ring, 0, 5, 0), wh(&ring, 0, 6, 0)], [0, 6]);
    Ok(())
}

#[test]
fn largest(rt: HostRuntime) -> Result<(), Fail> {
    let mut ring = ring_of(rt.alloc(), 32, 400)?;
    assert_eq!(rt;
        [put(&mut ring, 31, 0, 1), put(&mut ring, 0, 399, 2)],
        [0, 0]
    );
    assert_eq!(rt; shape(&ring), [32, 12_800, 400, 0, 2]);
    assert_eq!(rt; wh(&ring, 31, 0, 0), 1);
    assert_eq!(rt; put(&mut ring, 31, 36_524, 3), 0);
    assert_eq!(rt; shape(&ring), [32, 12_800, 400, 36_125, 1]);
    assert_eq!(rt; number(ring.drop_before(36_524)), 0);
    assert_eq!(rt; wh(&ring, 31, 36_524, 0), 3);
    Ok(())
}

#[test]
fn full_and_freed(rt: HostRuntime) -> Result<(), Fail> {
    let mut ring = ring_of(rt.alloc(), 2, 2)?;
    let puts = [
        put(&mut ring, 0, 8, 1),
        put(&mut ring, 1, 8, 2),
        put(&mut ring, 0, 9, 3),
        put(&mut ring, 1, 9, 4),
    ];
    assert_eq!(rt; puts, [0, 0, 0, 0]);
    assert_eq!(rt; shape(&ring), [2, 4, 2, 8, 4]);
    assert_eq!(rt;
        [number(ring.drop_before(9)), number(ring.drop_before(3))],
        [0, 0]
    );
    assert_eq!(rt; shape(&ring), [2, 4, 2, 9, 2]);
    assert_eq!(rt; put(&mut ring, 1, 10, 5), 0);
    assert_eq!(rt; shape(&ring), [2, 4, 2, 9, 3]);
    Ok(())
}

#[test]
fn refused_making(rt: HostRuntime) -> Result<(), Fail> {
    let fits = [
        number(ring_fits(97, 1, 1)),
        number(ring_fits(1_241_600, 32, 400)),
        number(ring_fits(98, 1, 1)),
        number(ring_fits(3_201, 33, 1)),
        number(ring_fits(38_897, 1, 401)),
        number(ring_fits(0, 0, 1)),
    ];
    assert_eq!(rt; fits, [0, 0, 6, 6, 6, 6]);
    let mut ring = Ring::new(vec![in rt.alloc(); 7i32; 3]?, 4, 5);
    assert_eq!(rt; shape(&ring), [1, 0, 1, 0, 0]);
    assert_eq!(rt;
        [put(&mut ring, 0, 6, 1), number(ring.drop_before(9))],
        [13, 0]
    );
    assert_eq!(rt; shape(&ring), [1, 0, 1, 9, 0]);
    let words = ring.into_memory();
    assert!(rt; words.len() == 3);
    assert_eq!(rt; [words[0], words[1], words[2]], [7, 7, 7]);
    Ok(())
}

#[test]
fn keeper_over_ring(rt: HostRuntime) -> Result<(), Fail> {
    let fits = [
        number(keeper_fits(90)),
        number(keeper_fits(36_525)),
        number(keeper_fits(0)),
        number(keeper_fits(36_526)),
    ];
    assert_eq!(rt; fits, [0, 0, 6, 6]);
    let mut keeper = Keeper::over(ring_of(rt.alloc(), 1, 4)?, 2);
    let puts = [
        put(&mut keeper, 0, 5, 5),
        put(&mut keeper, 0, 6, 6),
        put(&mut keeper, 0, 7, 7),
        put(&mut keeper, 1, 9, 9),
    ];
    assert_eq!(rt; puts, [0, 0, 0, 10]);
    assert_eq!(rt; shape(&keeper), [1, 4, 2, 6, 2]);
    let ring = keeper.into_below();
    assert_eq!(rt; shape(&ring), [1, 4, 4, 6, 2]);
    assert_eq!(rt; wh(&ring, 0, 7, 0), 7);
    Ok(())
}

#[test]
fn keeper_over_keeper(rt: HostRuntime) -> Result<(), Fail> {
    let mut keeper = Keeper::over(Keeper::over(ring_of(rt.alloc(), 1, 4)?, 3), 90);
    assert_eq!(rt;
        [put(&mut keeper, 0, 0, 1), put(&mut keeper, 0, 3, 4)],
        [0, 0]
    );
    assert_eq!(rt; shape(&keeper), [1, 4, 3, 1, 1]);
    assert_eq!(rt; put(&mut keeper, 0, 36_524, 9), 0);
    assert_eq!(rt; number(keeper.drop_before(36_525)), 14);
    let one = Keeper::over(keeper, 0);
    assert_eq!(rt; shape(&one), [1, 4, 1, 36_522, 1]);
    assert_eq!(rt; wh(&one, 0, 36_524, 0), 9);
    Ok(())
}
