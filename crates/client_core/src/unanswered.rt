//! The requests that are not answered yet, in the order of issue.

ghost use Rattle.std.specs.Prelude.{◌≡◌, length, map, unwrap_or, None, MatchOption};
ghost use Rattle.std.specs.List.{list_any};
ghost use Rattle.spec_client.specs.Unanswered.{is_outstanding, is_outstanding_at, outstanding_count, has_outstanding};
ghost use Rattle.spec_client.specs.Unanswered.{id_after, free_id, after_tick_of, least_id, without_first};
ghost use Rattle.client_core.specs.Unanswered.{is_at, is_answered_by, least_with, IsNowhere, FirstAt, TakesTimeout};

use std::marker::Model;

/// How long a request waits for its answer, in 100 ns: five seconds.
const TIMEOUT: u64 = 50_000_000;

/// A request without an answer; once it timed out it is kept until its timeout is told.
#[derive(Drop)]
pub(crate) struct Unanswered {
    id: u32,
    command: u16,
    sent: u64,
    timed_out: Option<u64>,
}

impl Model for Unanswered {
    ghost use Rattle.spec_client.specs.Unanswered as spec;

    ghost Value = { spec.Unanswered };

    ghost view = { λ u. record { id = u.id; command = u.command; sent = u.sent; timed_out = u.timed_out } };
}

impl Unanswered {
    /// A request that was issued at this moment.
    pub fn new(id: u32, command: u16, sent: u64) -> Self
        ensures { result ≡ record { id = id; command = command; sent = sent; timed_out = None } }
    {
        Unanswered {
            id,
            command,
            sent,
            timed_out: None,
        }
    }

    /// Its invoke id.
    pub fn id(&self) -> u32
        ensures { result ≡ self.now.id }
    {
        self.id
    }

    /// The moment of its issue.
    pub fn sent(&self) -> u64
        ensures { result ≡ self.now.sent }
    {
        self.sent
    }

    /// The moment of the tick by which it timed out, or 0.
    pub fn timed_out(&self) -> u64
        ensures { result ≡ unwrap_or self.now.timed_out 0 }
    {
        self.timed_out.unwrap_or(0)
    }

    // It waits for its answer.
    fn is_outstanding(&self) -> bool
        ensures { result ≡ is_outstanding self.now }
    {
        self.timed_out.is_none()
    }

    // It waits for its answer, or its timeout is to be told, and its id is this.
    fn is_at(&self, timed_out: bool, id: u32) -> bool
        ensures { result ≡ is_at timed_out id self.now }
    {
        self.timed_out.is_some() == timed_out && self.id == id
    }

    // A response of this id and command answers it.
    fn is_answered_by(&self, id: u32, command: u16) -> bool
        ensures { result ≡ is_answered_by id command self.now }
    {
        self.timed_out.is_none() && self.id == id && self.command == command
    }

    // A tick.
    fn pass(&mut self, now: u64)
        ensures { self.new ≡ after_tick_of now self.old }
    {
        if self.timed_out.is_none() && now.saturating_sub(self.sent) >= TIMEOUT {
            self.timed_out = Some(now);
        }
    }

    // The lesser of its id, where it timed out, and another one.
    fn least(&self, other: Option<u32>) -> Option<u32>
        ensures { result ≡ least_with self.now other }
    {
        if self.timed_out.is_none() {
            return other;
        }
        match other {
            Some(id) if id < self.id => Some(id),
            _ => Some(self.id),
        }
    }
}

/// How many of these wait for their answers.
pub(crate) fn outstanding_count(us: &[Unanswered]) -> usize
    ensures { result ≡ outstanding_count us.now }
{
    us.iter().filter(|u| u.is_outstanding()).count()
}

/// Whether a response of this id and command answers one of these.
pub(crate) fn is_answer(us: &[Unanswered], id: u32, command: u16) -> bool
    ensures { result ≡ list_any (is_answered_by id command) us.now }
{
    us.iter().any(|u| u.is_answered_by(id, command))
}

// One that waits for its answer has this id.
fn has_outstanding(us: &[Unanswered], id: u32) -> bool
    ensures { result ≡ has_outstanding id us.now }
{
    us.iter().any(|u| u.is_at(false, id))
}

/// The next id behind this one that none of these waits with.
pub(crate) fn next_id(us: &[Unanswered], last: u32) -> u32
    ensures { result ≡ free_id (length us.now) us.now (id_after last) }
{
    let mut id = id_after(last);
    let mut left = us.len();
    while left > 0 {
        if !has_outstanding(us, id) {
            return id;
        }
        id = id_after(id);
        left -= 1;
    }
    id
}

fn id_after(id: u32) -> u32
    ensures { result ≡ id_after id }
{
    if id == u32::MAX { 1 } else { id + 1 }
}

/// A tick: those that waited for five seconds time out.
pub(crate) fn pass(us: &mut [Unanswered], now: u64)
    ensures { us.new ≡ map (after_tick_of now) us.old }
{
    for u in us.iter_mut() {
        u.pass(now);
    }
}

// The least id of those that timed out.
fn least_id(us: &[Unanswered]) -> Option<u32>
    ensures { result ≡ least_id us.now }
{
    let mut least = None;
    let mut i = us.len();
    while i > 0 {
        i -= 1;
        least = us[i].least(least);
    }
    least
}

// Where the first stands that timed out, or waits, with this id.
fn place_of(us: &[Unanswered], timed_out: bool, id: u32) -> Option<usize>
    ensures { MatchOption result (IsNowhere (is_at timed_out id) us.now) (FirstAt (is_at timed_out id) us.now) }
{
    for (i, u) in us.iter().enumerate() {
        if u.is_at(timed_out, id) {
            return Some(i);
        }
    }
    None
}

/// The request of this id is answered.
pub(crate) fn answer(us: &mut Vec<Unanswered>, id: u32)
    ensures { us.new.items ≡ without_first (is_outstanding_at id) us.old.items }
{
    if let Some(i) = place_of(us, false, id) {
        us.remove(i);
    }
}

/// The timeout that is told next, which is told by that.
pub(crate) fn take_timeout(us: &mut Vec<Unanswered>) -> Option<Unanswered>
    ensures { TakesTimeout us.old.items us.new.items result }
{
    let id = least_id(us)?;
    let i = place_of(us, true, id)?;
    Some(us.remove(i))
}
