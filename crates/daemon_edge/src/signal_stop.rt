//! A stop by a signal that waits, or by a file.

ghost use Rattle.std.specs.Prelude.{◌≡◌, ◌≢◌, ◌≤◌, ◌%◌, IfOk, IsNone, is_some, length, vec_len};
ghost use Rattle.ads_outside.specs.Rose.{raised};

use crate::mask::{INTERRUPT, TERMINATE, mask_in};
use ads_base::NoMemory;
use cli_words::Text;
use daemon_outside::{Stop, StopCause};
use std::alloc::{AllocError, Global};
use std::fs;
use std::io::{Read, Seek, SeekFrom};
use std::rt::Files as SystemFiles;

/// Where Linux tells the signals of a process.
const STATUS_FILE: &str = "/proc/self/status";

/// The system is asked in each so many looks.
const EACH: u64 = 10;

/// Asks for an end where SIGTERM or SIGINT waits for the process, since it is blocked, or where the stop file is there.
/// The system is asked in each tenth look, beginning with the first.
#[derive(Drop)]
pub struct SignalStop<R: SystemFiles + Drop> {
    rt: R,
    // Open from the start: it can be read when no descriptor is left, and Linux writes its text anew at each reading.
    status: Option<R::File>,
    file: Option<Text>,
    buffer: Vec<u8>,
    looks: u64,
    // How often the system was asked.
    lookups: u64,
    asked: u64,
}

impl<R: SystemFiles + Drop> SignalStop<R> {
    /// It was not looked at.
    pub fn new(alloc: Global, rt: R, file: Option<Text>) -> Result<SignalStop<R>, NoMemory>
        ensures looks { IfOk result (λ s. s.looks ≡ 0) }
        ensures asked { IfOk result (λ s. s.asked ≡ 0) }
    {
        let status = fs::open(&rt, STATUS_FILE).ok();
        Ok(SignalStop {
            rt,
            status,
            file,
            buffer: empty_buffer(alloc)?,
            looks: 0,
            lookups: 0,
            asked: 0,
        })
    }

    /// Whether the system tells which signals wait: else the stop file alone asks for an end.
    pub fn sees_signals(&self) -> bool
        ensures { result ≡ is_some self.now.status }
    {
        self.status.is_some()
    }

    /// Whether SIGTERM is blocked, so that it waits for the process and does not end it.
    pub fn is_terminate_blocked(&mut self) -> bool
        ensures looks { self.new.looks ≡ self.old.looks }
        ensures asked { self.new.asked ≡ self.old.asked }
    {
        let n = self.read_status();
        mask_in(&self.buffer.as_slice()[..n], "SigBlk:") & TERMINATE != 0
    }

    // What asks for an end now, by the system's word.
    fn cause(&mut self) -> Option<StopCause>
        ensures looks { self.new.looks ≡ self.old.looks }
        ensures lookups { self.new.lookups ≡ raised self.old.lookups }
        ensures asked { self.new.asked ≡ self.old.asked }
    {
        self.lookups = self.lookups.saturating_add(1);
        let n = self.read_status();
        let status = &self.buffer.as_slice()[..n];
        let waiting = mask_in(status, "ShdPnd:") | mask_in(status, "SigPnd:");
        if waiting & TERMINATE != 0 {
            return Some(StopCause::Terminate);
        }
        if waiting & INTERRUPT != 0 {
            return Some(StopCause::Interrupt);
        }
        if is_there(&self.rt, &self.file) {
            return Some(StopCause::File);
        }
        None
    }

    // Reads the status into the buffer, and tells how many bytes of it stand there.
    fn read_status(&mut self) -> usize
        ensures looks { self.new.looks ≡ self.old.looks }
        ensures lookups { self.new.lookups ≡ self.old.lookups }
        ensures asked { self.new.asked ≡ self.old.asked }
        ensures within { result ≤ vec_len self.new.buffer }
    {
        match &mut self.status {
            Some(file) => read_anew(file, self.buffer.as_mut_slice()),
            None => 0,
        }
    }
}

// Whether the stop file is there, if there is to be one.
fn is_there<R: SystemFiles>(rt: &R, file: &Option<Text>) -> bool {
    match file {
        Some(name) => fs::exists(rt, name.as_str()).unwrap_or(false),
        None => false,
    }
}

// Reads a file from its start on; how many bytes that were.
fn read_anew<F: Read + Seek>(file: &mut F, buffer: &mut [u8]) -> usize
    ensures { result ≤ length buffer.new }
{
    match file.seek(SeekFrom::Start(0)) {
        Ok(_) => read_into(file, buffer),
        Err(_) => 0,
    }
}

// Reads to the end of a file, or till a buffer is full; how many bytes that were.
fn read_into<F: Read>(file: &mut F, buffer: &mut [u8]) -> usize
    ensures { result ≤ length buffer.new }
{
    let mut filled = 0;
    for _ in 0..64u32 {
        match file.read(&mut buffer[filled..]) {
            Ok(0) => return filled,
            Ok(n) => filled += n,
            Err(_) => return filled,
        }
    }
    filled
}

// A buffer of 8,192 bytes.
fn empty_buffer(alloc: Global) -> Result<Vec<u8>, AllocError> {
    Vec::from_elem(alloc, 0u8, 8_192)
}

impl<R: SystemFiles + Drop> Stop for SignalStop<R> {
    ghost use Rattle.daemon_outside.specs.Stops.{raised_if};

    ghost looks = { λ s. s.looks };

    ghost asked = { λ s. s.asked };

    fn look(&mut self) -> Option<StopCause>
        ensures looks { self.new.looks ≡ raised self.old.looks }
        ensures asked { self.new.asked ≡ raised_if (is_some result) self.old.asked }
        ensures later { self.old.asked ≤ self.new.asked }
        ensures asks { self.old.looks % 10 ≡ 0 → self.new.lookups ≡ raised self.old.lookups }
        ensures waits { self.old.looks % 10 ≢ 0 → IsNone result }
    {
        let number = self.looks;
        self.looks = number.saturating_add(1);
        if number % EACH != 0 {
            return None;
        }
        let found = self.cause();
        if found.is_some() {
            self.asked = self.asked.saturating_add(1);
        }
        found
    }
}
