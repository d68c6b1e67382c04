//! Two sessions, each of which is due to be told of Main.count.

use crate::meeting::Meeting;
use crate::plant::{described, watching};
use port_device::Ports;
use server_core::{OpenGate, Turned, check_all};
use std::test::Fail;

/// The moment of the tick.
const NOW: u64 = 1000;

// What each is told at it: a frame of port 851 to 192.168.0.9.1.1:32905, with one stamp and one sample, of handle 1: 42.
const FRAME: [u8; 70] = [
    0, 0, 0x40, 0, 0, 0, 0xc0, 0xa8, 0, 9, 1, 1, 0x89, 0x80, 5, 1, 2, 3, 1, 1, 0x53, 3, 8, 0, 4, 0,
    0x20, 0, 0, 0, 0, 0, 0, 0, 0, 0, 0, 0, 28, 0, 0, 0, 1, 0, 0, 0, 0xe8, 3, 0, 0, 0, 0, 0, 0, 1,
    0, 0, 0, 1, 0, 0, 0, 4, 0, 0, 0, 0x2a, 0, 0, 0,
];

// Whether a session gives that frame, and no other.
fn is_told(turned: &Turned) -> bool {
    match turned.out.as_slice() {
        [one] => one.samples == 1 && one.frame.as_slice() == FRAME.as_slice(),
        _ => false,
    }
}

#[test]
#[tactic(auto, using(port_device::proofs::BuiltLemmas::accepted_may_be_built))]
fn both_halves_are_checked_at_once(rt: HostRuntime) -> Result<(), Fail> {
    let alloc = rt.alloc();
    let d = described(alloc)?;
    let ports = Ports::build(alloc, &d)?;
    let mut list = [watching(alloc, &d)?, watching(alloc, &d)?];
    let gate = Meeting::new();
    check_all(&rt, alloc, &mut list, &ports, d.net, NOW, 1, &gate)?;
    assert_eq!(rt; gate.met(), 2);
    assert!(rt; list.iter().all(is_told));
    Ok(())
}

#[test]
#[tactic(auto, using(port_device::proofs::BuiltLemmas::accepted_may_be_built))]
fn without_levels_the_same_frames_come(rt: HostRuntime) -> Result<(), Fail> {
    let alloc = rt.alloc();
    let d = described(alloc)?;
    let ports = Ports::build(alloc, &d)?;
    let mut list = [watching(alloc, &d)?, watching(alloc, &d)?];
    check_all(&rt, alloc, &mut list, &ports, d.net, NOW, 0, &OpenGate)?;
    assert!(rt; list.iter().all(is_told));
    Ok(())
}

#[test]
#[tactic(auto, using(port_device::proofs::BuiltLemmas::accepted_may_be_built))]
fn without_levels_one_is_checked_after_another(rt: HostRuntime) -> Result<(), Fail> {
    let alloc = rt.alloc();
    let d = described(alloc)?;
    let ports = Ports::build(alloc, &d)?;
    let mut list = [watching(alloc, &d)?, watching(alloc, &d)?];
    let gate = Meeting::new();
    check_all(&rt, alloc, &mut list, &ports, d.net, NOW, 0, &gate)?;
    // The first waited in vain, and the second saw that it had come.
    assert_eq!(rt; gate.came(), 2);
    assert_eq!(rt; gate.met(), 1);
    Ok(())
}
