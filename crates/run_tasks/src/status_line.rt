//! The line that tells how a run ended.

ghost use Rattle.std.specs.Prelude.{◌≡◌, ◌++◌, ◌∷◌, [], codes, IfOk, OnOk};
ghost use Rattle.spec_client.specs.EndLines.{behind_number};
ghost use Rattle.spec_client.specs.Printed.{hexadecimal};
ghost use Rattle.spec_formats.specs.Codes.{text_of_code};
ghost use Rattle.spec_machine.specs.SummaryText.{counted};
ghost use Rattle.run_tasks.specs.StatusTable.{last_line_of, description_line};

use crate::status::Status;
use ads_base::{NoMemory, Octets};
use replay_script::put_counted;
use return_codes::{Code, codes_and_numbers_agree};
use std::alloc::Global;

/// The line on words that are no command.
pub const USAGE_LINE: &[u8] = b"ads: usage\n";

/// The line on a wire or a link that failed.
pub const LINK_FAULT_LINE: &[u8] = b"ads: link fault\n";

/// The line on want of memory, which takes none.
pub const MEMORY_LINE: &[u8] = b"ads: memory\n";

/// The last line of a status; no bytes where it has none.
pub fn last_line(alloc: Global, status: &Status) -> Result<Octets, NoMemory>
    ensures { IfOk result (λ line. line ≡ last_line_of status.now) }
{
    let text = match status {
        Status::Done => b"".as_slice(),
        Status::Usage => USAGE_LINE,
        Status::BadDescription { number, item } => {
            return bad_description_line(alloc, *number, *item);
        }
        Status::BadScript(number) => return bad_script_line(alloc, *number),
        Status::ReadFault => b"ads: read fault\n".as_slice(),
        Status::WriteFault => b"".as_slice(),
        Status::LinkFault => LINK_FAULT_LINE,
        Status::Budget => b"ads: budget\n".as_slice(),
        Status::Refused(code) => return refused_line(alloc, *code),
        Status::BadPeer(_) => b"ads: bad peer\n".as_slice(),
        Status::Memory => MEMORY_LINE,
        Status::TimedOut { sent, now } => return timed_out_line(alloc, *sent, *now),
        Status::TooLong => b"ads: file too long\n".as_slice(),
        Status::BadValue => b"ads: bad value\n".as_slice(),
        Status::StoreFault => b"ads: store fault\n".as_slice(),
        Status::StoreLimit => b"ads: store limit\n".as_slice(),
        Status::KeeperFault => b"ads: keeper fault\n".as_slice(),
    };
    Octets::copy_of(alloc, text)
}

fn bad_description_line(alloc: Global, number: u8, item: u32) -> Result<Octets, NoMemory>
    ensures { IfOk result (λ text. text ≡ description_line number item) }
{
    if number == 0 {
        return Octets::copy_of(alloc, b"ads: description syntax\n");
    }
    rule_line(alloc, number, item)
}

fn rule_line(alloc: Global, number: u8, item: u32) -> Result<Octets, NoMemory>
    ensures { IfOk result (λ text. text
        ≡ counted (codes "ads: description rule ") number ++ counted (codes " item ") item ++ 10 ∷ []) }
{
    let mut line = Octets::new(alloc);
    put_counted(
        alloc,
        &mut line,
        b"ads: description rule ",
        u64::from(number),
    )?;
    put_counted(alloc, &mut line, b" item ", u64::from(item))?;
    line.push(alloc, b'\n')?;
    Ok(line)
}

fn bad_script_line(alloc: Global, number: u32) -> Result<Octets, NoMemory>
    ensures { IfOk result (λ line. line ≡ last_line_of (Status.BadScript number)) }
{
    let text = format!(in alloc; "ads: script line {number}\n")?;
    Octets::copy_of(alloc, text.as_bytes())
}

fn refused_line(alloc: Global, code: u32) -> Result<Octets, NoMemory>
    ensures { IfOk result (λ line. line ≡ last_line_of (Status.Refused code)) }
{
    let mut line = Octets::new(alloc);
    put_hexadecimal(alloc, &mut line, code)?;
    put_code_text(alloc, &mut line, code)?;
    line.push(alloc, b'\n')?;
    Ok(line)
}

// The number of a code, behind the words that it was refused.
fn put_hexadecimal(alloc: Global, line: &mut Octets, code: u32) -> Result<(), NoMemory>
    ensures { OnOk result (line.new ≡ line.old ++ (codes "ads: refused " ++ hexadecimal code)) }
{
    let digits = format!(in alloc; "ads: refused 0x{code:X}")?;
    line.put(alloc, digits.as_bytes())?;
    Ok(())
}

// The text of a code, if it has one.
fn put_code_text(alloc: Global, line: &mut Octets, code: u32) -> Result<(), NoMemory>
    ensures { OnOk result (line.new ≡ line.old ++ behind_number (text_of_code code)) }
{
    codes_and_numbers_agree();
    match Code::of(code) {
        None => Ok(()),
        Some(known) => {
            line.put(alloc, b" ")?;
            line.put(alloc, known.text().as_bytes())?;
            Ok(())
        }
    }
}

fn timed_out_line(alloc: Global, sent: u64, now: u64) -> Result<Octets, NoMemory>
    ensures { IfOk result (λ line. line ≡ last_line_of (Status.TimedOut sent now)) }
{
    let mut line = Octets::new(alloc);
    put_counted(alloc, &mut line, b"ads: timed out ", sent)?;
    put_counted(alloc, &mut line, b" ", now)?;
    line.push(alloc, b'\n')?;
    Ok(line)
}
