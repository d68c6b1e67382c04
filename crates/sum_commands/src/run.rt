//! A sum command is run.

ghost use Rattle.std.specs.Prelude.{◌≡◌, ◌<◌, ◌≤◌, ◌+◌, ◌*◌, ◌^◌, ◌++◌, length, take, OnOk, OnErr, IfOk};
ghost use Rattle.ads_base.specs.Octets.{Extends};
ghost use Rattle.spec_formats.specs.Groups.{sum_read};
ghost use Rattle.spec_formats.specs.Ranges.{greatest_len};
ghost use Rattle.spec_machine.specs.Sums.{MAX_PARTS};
ghost use Rattle.spec_machine.specs.MoreSums.{sum_delete};
ghost use Rattle.sum_commands.specs.Forms.{HasParts, Replies, front_width, all_asked, parts_of};
ghost use Rattle.sum_commands.specs.Served.{StandsForSome};
ghost use Rattle.sum_commands.specs.Stops.{StopsAmong, KeepsFront};
ghost use Rattle.sum_commands.specs.SumCommand.{sum_of, refusal_in, refused_by, sum_reply, left_by_sum};

use crate::PartService;
use crate::form::Form;
use crate::heads::{Rest, behind_first, bytes_behind};
use crate::lent::put_reads;
use crate::refusals::accepted_len;
use crate::room::put_zeros;
use crate::running::run_first;
use ads_base::{NoMemory, Octets};
use return_codes::Code;
use std::alloc::Global;

/// Runs the n parts of a sum command one after another, each on the state that the part before left, and appends the
/// data of its reply. The group is 0xF080 for reads, 0xF081 for writes and 0xF082 for read-writes; 0xF083 and 0xF084 are reads
/// whose results tell their lengths; 0xF085 and 0xF086 add and delete notifications.
///
/// | group | bytes | reply |
/// |---|---|---|
/// | 0xF080 | n times group 4, offset 4, length 4 | n results of 4, then the data, each filled with zeros to its length |
/// | 0xF081 | n times group 4, offset 4, length 4, then the data | n results of 4 |
/// | 0xF082 | n times group 4, offset 4, read length 4, write length 4, then the data | n times result 4 and length 4, then the data |
/// | 0xF083 | n times group 4, offset 4, length 4 | n times result 4 and length 4, then the data, each filled with zeros to its asked length |
/// | 0xF084 | n times group 4, offset 4, length 4 | n times result 4 and length 4, then the data |
/// | 0xF085 | n times group 4, offset 4, length 4, mode 4, delay 4, cycle 4, and 16 reserved bytes or none | n times result 4 and handle 4 |
/// | 0xF086 | n times handle 4 | n results of 4 |
///
/// Refused, before a part is run: n above 500, 0x706; bytes that are not as long as the heads say, 0x705; `read_len`
/// below the greatest length of the reply, or that above 2,000,000, 0x705. A part that is refused hinders no later one.
/// After want of memory the parts that ran stay done. Beckhoff Information System, "ADS Sum Command".
pub fn run_sum<P: PartService>(
    alloc: Global,
    service: &mut P,
    group: u32,
    n: u32,
    read_len: u32,
    bytes: &[u8],
    out: &mut Octets,
) -> Result<Result<(), Code>, NoMemory>
    requires from { sum_read ≤ group }
    requires to { group ≤ sum_delete }
    requires some { StandsForSome P.stands_for service.old }

    // Refused exactly by the code of the definition, with no part run.
    ensures code { IfOk result (λ answer. refused_by answer
        ≡ refusal_in (sum_of group n bytes.now) n (length bytes.now) read_len) }
    ensures err { IfOk result (λ answer. OnErr answer ((service.new ≡ service.old) × (out.new ≡ out.old))) }

    // Else the parts run one after another.
    ensures reply { IfOk result (λ answer. OnOk answer ((s : P.State) → P.stands_for service.old s
        → out.new ≡ out.old ++ sum_reply P.given P.left s (sum_of group n bytes.now))) }
    ensures leaves { IfOk result (λ answer. OnOk answer ((s : P.State) → P.stands_for service.old s
        → P.stands_for service.new (left_by_sum P.left s (sum_of group n bytes.now)))) }
    ensures asked { IfOk result (λ answer. length out.new ≤ length out.old + read_len) }
    ensures short { IfOk result (λ answer. length out.new ≤ length out.old + greatest_len) }

    // Where memory is wanting the parts that ran stay done.
    ensures wants { OnErr result ((s : P.State) → P.stands_for service.old s
        → StopsAmong P.stands_for P.left P.may_leave (sum_of group n bytes.now).parts s service.new) }
    ensures no_memory { OnErr result (out.new ≡ out.old) }
{
    let form = Form::of(group, n, bytes);
    let len = match accepted_len(form, n, read_len, bytes) {
        Ok(len) => len,
        Err(code) => return Ok(Err(code)),
    };
    let rest = Rest {
        form,
        heads: bytes,
        written: bytes_behind(bytes, form.heads(n)),
    };
    let before = out.len();
    let put = put_reply(alloc, service, rest, n, len, out);
    match out.cut_back(before, put) {
        Ok(()) => Ok(Ok(())),
        Err(no_memory) => Err(no_memory),
    }
}

// Appends the reply of n parts, which has so many bytes at most.
fn put_reply<P: PartService>(
    alloc: Global,
    service: &mut P,
    rest: Rest<'_>,
    n: u32,
    len: u32,
    out: &mut Octets,
) -> Result<(), NoMemory>
    requires few { n ≤ MAX_PARTS }
    requires parts { HasParts rest.form n rest.heads.now rest.written.now }
    requires len { len ≡ front_width rest.form * n + all_asked rest.form n rest.heads.now }
    requires some { StandsForSome P.stands_for service.old }
    ensures ok { OnOk result ((s : P.State) → P.stands_for service.old s
        → Replies P.stands_for P.given P.left rest.entry.form n rest.entry.heads.now rest.entry.written.now
        s service.new out.old out.new) }
    ensures wants { OnErr result ((s : P.State) → P.stands_for service.old s → StopsAmong P.stands_for P.left P.may_leave
        (parts_of rest.entry.form n rest.entry.heads.now rest.entry.written.now) s service.new) }
    ensures no_memory { OnErr result (Extends out.old out.new) }
{
    let fronts = rest.form.fronts(n);
    out.reserve(alloc, rest.form.sure_len(fronts, len as usize))?;
    // Most sums are of plain reads whose bytes are lent.
    if let Form::Reads = rest.form {
        if put_reads(alloc, &*service, rest.heads, n, len, out)? {
            return Ok(());
        }
    }
    put_parts(alloc, service, rest, n, out)
}

// The same part by part: the room of the results, which is filled in, and behind it the data. Apart from the code of the caller, so
// that the loop has the registers for itself.
#[inline(never)]
fn put_parts<P: PartService>(
    alloc: Global,
    service: &mut P,
    rest: Rest<'_>,
    n: u32,
    out: &mut Octets,
) -> Result<(), NoMemory>
    requires few { n ≤ MAX_PARTS }
    requires parts { HasParts rest.form n rest.heads.now rest.written.now }
    requires some { StandsForSome P.stands_for service.old }
    ensures ok { OnOk result ((s : P.State) → P.stands_for service.old s
        → Replies P.stands_for P.given P.left rest.entry.form n rest.entry.heads.now rest.entry.written.now
        s service.new out.old out.new) }
    ensures wants { OnErr result ((s : P.State) → P.stands_for service.old s → StopsAmong P.stands_for P.left P.may_leave
        (parts_of rest.entry.form n rest.entry.heads.now rest.entry.written.now) s service.new) }
    ensures no_memory { OnErr result (Extends out.old out.new) }
{
    let fronts = rest.form.fronts(n);
    put_zeros(alloc, out, fronts)?;
    let start = out.len() - fronts as usize;
    // Plain reads have a loop of their own, which tests no form.
    match rest.form {
        Form::Reads => {
            let reads = Rest {
                form: Form::Reads,
                heads: rest.heads,
                written: rest.written,
            };
            run_parts(alloc, service, reads, n, start, out)
        }
        _ => run_parts(alloc, service, rest, n, start, out),
    }
}

// Runs n parts. Their results are written into the room from `start` on, and their data is appended.
#[inline(always)]
fn run_parts<P: PartService>(
    alloc: Global,
    service: &mut P,
    rest: Rest<'_>,
    n: u32,
    start: usize,
    out: &mut Octets,
) -> Result<(), NoMemory>
    requires parts { HasParts rest.form n rest.heads.now rest.written.now }
    requires some { StandsForSome P.stands_for service.old }
    requires room { length out.old ≡ start + front_width rest.form * n }
    requires small { length out.old < 2 ^ 64 }
    ensures ok { OnOk result ((s : P.State) → P.stands_for service.old s
        → Replies P.stands_for P.given P.left rest.entry.form n rest.entry.heads.now rest.entry.written.now
        s service.new (take start out.old) out.new) }
    ensures wants { OnErr result ((s : P.State) → P.stands_for service.old s → StopsAmong P.stands_for P.left P.may_leave
        (parts_of rest.entry.form n rest.entry.heads.now rest.entry.written.now) s service.new) }
    ensures no_memory { OnErr result (KeepsFront start out.old out.new) }
{
    let mut rest = rest;
    let mut at = start;
    for _ in 0..n {
        run_first(alloc, service, rest, at, out)?;
        at += rest.form.front();
        rest = behind_first(rest);
    }
    Ok(())
}
