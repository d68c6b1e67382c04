//! Which places stay touched, of which no clause of a call speaks.

use crate::outlets::Outlets;
use crate::touched::Touched;
use ads_base::NoMemory;
use std::alloc::Global;
use std::test::Fail;

fn open(alloc: Global, outlets: &mut Outlets, number: u32) -> Result<(), NoMemory> {
    match outlets.place_of(number) {
        Some(_) => Ok(()),
        None => outlets.open(alloc, number),
    }
}

// How many places are touched; 3 for all.
fn many_touched(outlets: &Outlets) -> u32 {
    match outlets.touched {
        Touched::Nothing => 0,
        Touched::One(_) => 1,
        Touched::Two(_, _) => 2,
        Touched::All => 3,
    }
}

#[test]
fn what_was_served_is_touched_no_more(rt: HostRuntime) -> Result<(), Fail> {
    let alloc = rt.alloc();
    let mut outlets = Outlets::new(alloc);
    let mut numbers = Vec::new(alloc);
    for number in [4, 7, 9] {
        open(alloc, &mut outlets, number)?;
    }
    assert_eq!(rt; many_touched(&outlets), 0);
    assert!(rt; outlets.give(alloc, 0, &[1, 2])?);
    assert!(rt; outlets.give(alloc, 2, &[3])?);
    assert_eq!(rt; many_touched(&outlets), 2);
    outlets.due(alloc, &mut numbers)?;
    assert_eq!(rt; numbers.as_slice(), [4, 9].as_slice());
    outlets.took_run(4);
    outlets.settle();
    assert_eq!(rt; many_touched(&outlets), 1);
    outlets.due(alloc, &mut numbers)?;
    assert_eq!(rt; numbers.as_slice(), [9].as_slice());
    outlets.took_run(9);
    outlets.settle();
    assert_eq!(rt; many_touched(&outlets), 0);
    outlets.due(alloc, &mut numbers)?;
    assert!(rt; numbers.is_empty());
    Ok(())
}

#[test]
fn many_that_are_touched_are_all(rt: HostRuntime) -> Result<(), Fail> {
    let alloc = rt.alloc();
    let mut outlets = Outlets::new(alloc);
    for number in [1, 2, 3] {
        open(alloc, &mut outlets, number)?;
        outlets.free(number);
    }
    assert_eq!(rt; many_touched(&outlets), 3);
    outlets.settle();
    assert_eq!(rt; many_touched(&outlets), 0);
    outlets.close(1);
    outlets.close(2);
    let _ = outlets.end(2);
    outlets.settle();
    assert_eq!(rt; many_touched(&outlets), 1);
    assert!(rt; outlets.is_to_be_shut(3));
    Ok(())
}
