//! Plain reads whose bytes are lent: their data is written in one walk over the heads, and their results are all 0.

ghost use Rattle.std.specs.Prelude.{◌≡◌, ◌≤◌, ◌+◌, ◌*◌, ◌++◌, [], true, false, length, replicate, sum, IfOk, OnErr};
ghost use Rattle.spec_formats.specs.Numbers.{number32};
ghost use Rattle.spec_formats.specs.Request.{Read};
ghost use Rattle.spec_machine.specs.Sums.{MAX_PARTS, numbers_of_heads};
ghost use Rattle.sum_commands.specs.declared.form.Form.TheVariants as form;
ghost use Rattle.sum_commands.specs.Forms.{Replies};
ghost use Rattle.sum_commands.specs.Parts.{written_over};
ghost use Rattle.sum_commands.specs.Reads.{WritesLent};
ghost use Rattle.sum_commands.specs.Served.{StandsForSome};

use crate::PartService;
use crate::heads::bytes_behind;
use crate::room::put_zeros;
use ads_base::{NoMemory, Octets, get32};
use std::alloc::Global;

// Appends the reply of n plain reads, which has so many bytes, if the bytes of each are lent. Else it is false, and nothing is appended.
pub(crate) fn put_reads<P: PartService>(
    alloc: Global,
    service: &P,
    heads: &[u8],
    n: u32,
    len: u32,
    out: &mut Octets,
) -> Result<bool, NoMemory>
    requires few { n ≤ MAX_PARTS }
    requires heads { 12 * n ≤ length heads.now }
    requires len { len ≡ 4 * n + sum (numbers_of_heads n 12 8 heads.now) }
    requires some { StandsForSome P.stands_for service.now }
    ensures all { IfOk result (λ all. all ≡ true → (s : P.State) → P.stands_for service.now s
        → Replies P.stands_for P.given P.left form.Reads n heads.now [] s service.now out.old out.new) }
    ensures not_all { IfOk result (λ all. all ≡ false → out.new ≡ out.old) }
    ensures no_memory { OnErr result (out.new ≡ out.old) }
{
    let before = out.len();
    put_zeros(alloc, out, len)?;
    let asked = (len - 4 * n) as usize;
    let begin = out.len() - asked;
    if put_lent(service, heads, n, &mut out.as_mut_slice()[begin..]) {
        return Ok(true);
    }
    out.cut(before);
    Ok(false)
}

// Writes the data of n plain reads over room of just so many bytes. It is false if one is not lent; then any bytes may stand there.
// Apart from the code of the caller, so that the walk has the registers for itself.
#[inline(never)]
fn put_lent<P: PartService>(service: &P, heads: &[u8], n: u32, room: &mut [u8]) -> bool
    requires few { n ≤ MAX_PARTS }
    requires heads { 12 * n ≤ length heads.now }
    requires fits { length room.old ≡ sum (numbers_of_heads n 12 8 heads.now) }
    requires some { StandsForSome P.stands_for service.now }
    ensures all { result ≡ true → (s : P.State) → P.stands_for service.now s
        → Replies P.stands_for P.given P.left form.Reads n heads.now [] s service.now [] (replicate (4 * n) 0 ++ room.new) }
    ensures len { length room.new ≡ length room.old }
{
    let mut rest = heads;
    let mut at = 0usize;
    for _ in 0..n {
        let len = get32(rest, 8);
        if !put_first(service, rest, len, at, room) {
            return false;
        }
        at += len as usize;
        rest = bytes_behind(rest, 12);
    }
    true
}

// Writes the data of the first read at its place, if its bytes are lent.
#[inline(always)]
fn put_first<P: PartService>(
    service: &P,
    heads: &[u8],
    len: u32,
    at: usize,
    room: &mut [u8],
) -> bool
    requires head { 12 ≤ length heads.now }
    requires len { len ≡ number32 8 heads.now }
    requires fits { at + len ≤ length room.old }
    requires some { StandsForSome P.stands_for service.now }
    ensures lent { result ≡ true → (s : P.State) → P.stands_for service.now s
        → WritesLent P.stands_for P.given P.left (Read (number32 0 heads.now) (number32 4 heads.now) len) s service.now len at room.old room.new }
    ensures len { length room.new ≡ length room.old }
{
    let group = get32(heads, 0);
    let offset = get32(heads, 4);
    match service.lent(group, offset, len) {
        Some(bytes) => {
            put_over(room, at, bytes);
            true
        }
        None => false,
    }
}

// Writes bytes over those that stand at a place. Those of a field of four bytes, as most are, are moved in one step: nothing tests
// whether they lie in the room.
#[inline(always)]
fn put_over(room: &mut [u8], at: usize, bytes: &[u8])
    requires { at + length bytes.now ≤ length room.old }
    ensures { room.new ≡ written_over at bytes.now room.old }
{
    match bytes.as_array::<4>() {
        Some(four) => put_four(&mut room[at..at + 4], *four),
        None => room[at..at + bytes.len()].copy_from_slice(bytes),
    }
}

#[inline(always)]
fn put_four(room: &mut [u8], four: [u8; 4])
    requires { length room.old ≡ 4 }
    ensures { room.new ≡ four }
{
    if let Some(there) = room.as_mut_array::<4>() {
        *there = four;
    }
}
