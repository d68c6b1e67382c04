//! The signals of a process, as Linux tells them in /proc/self/status.

use std::str;

/// SIGINT, SIGTERM, as bits of a mask: signal n has the bit n - 1.
pub(crate) const INTERRUPT: u64 = 0x2;

pub(crate) const TERMINATE: u64 = 0x4000;

/// The mask behind a name, as `ShdPnd:`, in the text of /proc/self/status; no signals where it is not there.
pub(crate) fn mask_in(status: &[u8], name: &str) -> u64 {
    match str::from_utf8(status) {
        Ok(text) => mask_of_lines(text, name),
        Err(_) => 0,
    }
}

fn mask_of_lines(text: &str, name: &str) -> u64 {
    for line in text.lines() {
        if let Some(digits) = line.strip_prefix(name) {
            return u64::from_str_radix(digits.trim(), 16).unwrap_or(0);
        }
    }
    0
}
