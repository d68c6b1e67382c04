//! One sum command that reads several symbols by their handles.

ghost use Rattle.std.specs.Prelude.{◌≡◌, ◌≤◌, ◌<◌, ◌+◌, ◌*◌, ◌^◌, ◌++◌, [], ◌∷◌, length, sum, IfOk, OnOk, OnErr, IsErr, ◌↔◌};
ghost use Rattle.spec_formats.specs.Header.{AmsAddress};
ghost use Rattle.spec_formats.specs.Request.{access_bytes};
ghost use Rattle.spec_client.specs.History.{ClientHistory, Issue, issued_after};
ghost use Rattle.spec_client.specs.ReadNames.{handle_parts, read_names_request};
ghost use Rattle.spec_client.specs.Unanswered.{MAX_OUTSTANDING, outstanding_count};
ghost use Rattle.client_core.specs.Heard.{issued_meant};
ghost use Rattle.client_core.specs.Represents.{Represents};

use ads_base::{NoMemory, Octets, put32};
use ads_commands::Request;
use client_core::{Client, Issued, Outstanding};
use index_groups::{SUM_READ, VALUE_BY_HANDLE};
use std::alloc::Global;

/// Issues one sum that reads the symbols with these handles and sizes. The reply has a result of 4 bytes for each of
/// them, and then the bytes of all.
///
/// Beckhoff Information System, "ADS-sum command: Read".
pub fn read_names(
    alloc: Global,
    client: &mut Client,
    handles: &[u32],
    sizes: &[u32],
    now: u64,
) -> Result<Result<Issued, Outstanding>, NoMemory>
    requires pairs { length handles.now ≡ length sizes.now }
    requires few { length handles.now ≤ 500 }
    requires small { 4 * length sizes.now + sum sizes.now ≤ 2000000 }
    ensures issued { IfOk result (λ answer. (me peer : AmsAddress) (h : ClientHistory) → Represents me peer client.old h
        → issued_meant answer ≡ issued_after me peer h (read_names_request handles.now sizes.now)) }
    ensures full { IfOk result (λ answer. IsErr answer ↔ (MAX_OUTSTANDING ≤ outstanding_count client.old.unanswered)) }
    ensures stands { OnOk result ((me peer : AmsAddress) (h : ClientHistory) → Represents me peer client.old h
        → Represents me peer client.new (h ++ Issue (read_names_request handles.now sizes.now) now ∷ [])) }
    ensures err { IfOk result (λ answer. OnErr answer (client.new ≡ client.old)) }
    ensures no_memory { OnErr result (client.new ≡ client.old) }
{
    let parts = parts_of(alloc, handles, sizes)?;
    let count = handles.len() as u32;
    let request = Request::ReadWrite {
        group: SUM_READ,
        offset: count,
        read_len: 4 * count + total(sizes),
        bytes: parts.as_slice(),
    };
    client.issue(alloc, &request, now)
}

fn total(sizes: &[u32]) -> u32
    requires { sum sizes.now < 2 ^ 32 }
    ensures { result ≡ sum sizes.now }
{
    sizes.iter().sum()
}

// Group, handle and length of each symbol.
fn parts_of(alloc: Global, handles: &[u32], sizes: &[u32]) -> Result<Octets, NoMemory>
    requires { length handles.now ≡ length sizes.now }
    ensures parts { IfOk result (λ parts. parts ≡ handle_parts handles.now sizes.now) }
    ensures size { IfOk result (λ parts. length parts ≡ 12 * length handles.now) }
{
    let mut parts = Octets::new(alloc);
    for i in 0..handles.len() {
        put_part(alloc, &mut parts, VALUE_BY_HANDLE, handles[i], sizes[i])?;
    }
    Ok(parts)
}

fn put_part(
    alloc: Global,
    parts: &mut Octets,
    group: u32,
    handle: u32,
    size: u32,
) -> Result<(), NoMemory>
    ensures part { OnOk result (parts.new ≡ parts.old ++ access_bytes group handle size) }
    ensures size { OnOk result (length parts.new ≡ length parts.old + 12) }
{
    put32(alloc, parts, group)?;
    put32(alloc, parts, handle)?;
    put32(alloc, parts, size)?;
    Ok(())
}
