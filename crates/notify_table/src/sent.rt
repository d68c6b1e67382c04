//! The bytes that a notification last sent.

ghost use Rattle.std.specs.Prelude.{◌≡◌, length, take, bytes_eq, IfOk};
ghost use Rattle.notify_table.specs.Sent.{few_bytes};

use ads_base::NoMemory;
use std::alloc::Global;
use std::marker::Model;

// So many bytes stand in place.
const FEW: usize = 8;

// Bytes of a fixed length.
#[derive(Drop)]
pub(crate) struct SentBytes {
    kept: Kept,
}

#[derive(Drop)]
enum Kept {
    Few(Few),
    Many(Vec<u8>),
}

// A few stand in place, so that a check of them reads no other memory.
#[derive(Clone, Copy)]
struct Few {
    len: u8,
    bytes: [u8; FEW],
}

impl Model for SentBytes {
    ghost use Rattle.std.specs.Prelude.{ℕ, List};
    ghost use Rattle.notify_table.specs.Sent.{bytes_in};

    ghost Value = { List ℕ };

    ghost view = { bytes_in };
}

impl SentBytes {
    // So many bytes, whatever they are. All memory that they need is taken here.
    pub fn new(alloc: Global, len: usize) -> Result<SentBytes, NoMemory>
        ensures { IfOk result (λ bytes. length bytes ≡ len) }
    {
        if len <= FEW {
            let few = Few {
                len: len as u8,
                bytes: [0; FEW],
            };
            return Ok(SentBytes {
                kept: Kept::Few(few),
            });
        }
        let many = Vec::from_elem(alloc, 0, len)?;
        Ok(SentBytes {
            kept: Kept::Many(many),
        })
    }

    // As many bytes take the place of those that it holds: whether they are the same.
    #[inline(always)]
    pub fn renew(&mut self, bytes: &[u8]) -> bool
        requires { length bytes.now ≡ length self.old }
        ensures same { result ≡ bytes_eq bytes.now self.old }
        ensures new { self.new ≡ bytes.now }
    {
        match &mut self.kept {
            Kept::Few(few) => renew_few(few, bytes),
            Kept::Many(many) => renew_many(many, bytes),
        }
    }
}

#[inline(always)]
fn renew_few(few: &mut Few, bytes: &[u8]) -> bool
    requires { length bytes.now ≡ length (few_bytes few.old) }
    ensures same { result ≡ bytes_eq bytes.now (few_bytes few.old) }
    ensures new { few_bytes few.new ≡ bytes.now }
{
    // Two, four and eight are compared and moved in one step.
    if let Some(two) = bytes.as_array::<2>() {
        return renew_two(&mut few.bytes, *two);
    }
    if let Some(four) = bytes.as_array::<4>() {
        return renew_four(&mut few.bytes, *four);
    }
    if let Some(eight) = bytes.as_array::<8>() {
        return renew_eight(&mut few.bytes, *eight);
    }
    renew_others(few, bytes)
}

// The same of any number of bytes, apart from the code of the caller.
#[inline(never)]
fn renew_others(few: &mut Few, bytes: &[u8]) -> bool
    requires { length bytes.now ≡ length (few_bytes few.old) }
    ensures same { result ≡ bytes_eq bytes.now (few_bytes few.old) }
    ensures new { few_bytes few.new ≡ bytes.now }
{
    renew_slice(&mut few.bytes[..bytes.len()], bytes)
}

#[inline(never)]
fn renew_many(many: &mut Vec<u8>, bytes: &[u8]) -> bool
    requires { length bytes.now ≡ length many.old.items }
    ensures same { result ≡ bytes_eq bytes.now many.old.items }
    ensures new { many.new.items ≡ bytes.now }
{
    renew_slice(many.as_mut_slice(), bytes)
}

fn renew_two(few: &mut [u8; FEW], two: [u8; 2]) -> bool
    ensures same { result ≡ bytes_eq two (take 2 few.old) }
    ensures new { take 2 few.new ≡ two }
{
    let [b0, b1] = two;
    let same = two == [few[0], few[1]];
    few[0] = b0;
    few[1] = b1;
    same
}

fn renew_four(few: &mut [u8; FEW], four: [u8; 4]) -> bool
    ensures same { result ≡ bytes_eq four (take 4 few.old) }
    ensures new { take 4 few.new ≡ four }
{
    let [b0, b1, b2, b3] = four;
    let same = are_same_four(four, [few[0], few[1], few[2], few[3]]);
    few[0] = b0;
    few[1] = b1;
    few[2] = b2;
    few[3] = b3;
    same
}

fn renew_eight(few: &mut [u8; FEW], eight: [u8; FEW]) -> bool
    ensures same { result ≡ bytes_eq eight few.old }
    ensures new { few.new ≡ eight }
{
    let same = are_same_eight(eight, *few);
    *few = eight;
    same
}

fn are_same_four(bytes: [u8; 4], others: [u8; 4]) -> bool
    ensures { result ≡ bytes_eq bytes others }
{
    u32::from_le_bytes(bytes) == u32::from_le_bytes(others)
}

fn are_same_eight(bytes: [u8; 8], others: [u8; 8]) -> bool
    ensures { result ≡ bytes_eq bytes others }
{
    u64::from_le_bytes(bytes) == u64::from_le_bytes(others)
}

fn renew_slice(held: &mut [u8], bytes: &[u8]) -> bool
    requires { length bytes.now ≡ length held.old }
    ensures same { result ≡ bytes_eq bytes.now held.old }
    ensures new { held.new ≡ bytes.now }
{
    if bytes == &*held {
        return true;
    }
    held.copy_from_slice(bytes);
    false
}
