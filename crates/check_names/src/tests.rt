//! A client of 192.168.0.9.1.1 that reads two symbols of 5.1.2.3.1.1 by their handles.

use ads_base::{AmsAddr, NetId};
use client_calls::read_names;
use client_core::{Client, Heard, Outstanding};
use std::alloc::Global;
use std::test::Fail;

const ME: AmsAddr = AmsAddr {
    net: NetId {
        bytes: [192, 168, 0, 9, 1, 1],
    },
    port: 32905,
};

const PEER: AmsAddr = AmsAddr {
    net: NetId {
        bytes: [5, 1, 2, 3, 1, 1],
    },
    port: 851,
};

// A ReadWrite, invoke id 1, of 0xF080: 2 parts, 14 bytes to be read, 24 written: 0xF005 with handle 1 and 4 bytes, and with
// handle 2 and 2 bytes.
const SUM: &[u8] =
    b"\x00\x00\x48\x00\x00\x00\x05\x01\x02\x03\x01\x01\x53\x03\xc0\xa8\x00\x09\x01\x01\x89\x80\x09\x00\x04\x00\x28\x00\x00\x00\x00\x00\x00\x00\x01\x00\x00\x00\x80\xf0\x00\x00\x02\x00\x00\x00\x0e\x00\x00\x00\x18\x00\x00\x00\x05\xf0\x00\x00\x01\x00\x00\x00\x04\x00\x00\x00\x05\xf0\x00\x00\x02\x00\x00\x00\x02\x00\x00\x00";

// Its answer: result 0, 14 bytes, two results 0, then 42 and 4.
const ANSWER: &[u8] =
    b"\x00\x00\x36\x00\x00\x00\xc0\xa8\x00\x09\x01\x01\x89\x80\x05\x01\x02\x03\x01\x01\x53\x03\x09\x00\x05\x00\x16\x00\x00\x00\x00\x00\x00\x00\x01\x00\x00\x00\x00\x00\x00\x00\x0e\x00\x00\x00\x00\x00\x00\x00\x00\x00\x00\x00\x2a\x00\x00\x00\x04\x00";

#[test]
fn two_names_are_read_by_one_sum(rt: HostRuntime) -> Result<(), Fail> {
    let alloc = rt.alloc();
    let mut client = Client::new(alloc, ME, PEER)?;
    assert!(rt; issues_the_sum(alloc, &mut client)?);
    client.feed(alloc, ANSWER)?;
    assert!(rt; hears_both(alloc, &mut client)?);
    Ok(())
}

// Whether the bytes of the sum are issued, with the first id.
fn issues_the_sum(alloc: Global, client: &mut Client) -> Result<bool, ads_base::NoMemory> {
    match read_names(alloc, client, &[1, 2], &[4, 2], 5)? {
        Ok(issued) => Ok(issued.id == 1 && issued.frame.as_slice() == SUM),
        Err(Outstanding) => Ok(false),
    }
}

// Whether the answer to request 1 is heard, with the bytes of both symbols at its end.
fn hears_both(alloc: Global, client: &mut Client) -> Result<bool, ads_base::NoMemory> {
    match client.next(alloc)? {
        Heard::Answered { id, bytes, .. } => {
            Ok(id == 1 && bytes.as_slice().ends_with(b"\x2a\x00\x00\x00\x04\x00"))
        }
        _ => Ok(false),
    }
}

#[test]
fn the_65th_request_is_refused(rt: HostRuntime) -> Result<(), Fail> {
    let alloc = rt.alloc();
    let mut client = Client::new(alloc, ME, PEER)?;
    assert_eq!(rt; issued_of(alloc, &mut client, 70)?, 64);
    Ok(())
}

// How many of so many are issued.
fn issued_of(alloc: Global, client: &mut Client, times: u32) -> Result<u32, ads_base::NoMemory> {
    let mut issued: u32 = 0;
    for _ in 0..times {
        if read_names(alloc, client, &[1], &[4], 5)?.is_ok() {
            issued = issued.saturating_add(1);
        }
    }
    Ok(issued)
}
