//! The text of the status file, as Prometheus reads it.

use crate::counts::Counts;
use std::alloc::{AllocError, Global};

/// What is told beside the counts: connections that are there, refused peers, lines of the log that were lost.
#[derive(Clone, Copy, Debug)]
pub(crate) struct Beside {
    pub(crate) there: u64,
    pub(crate) refused: u64,
    pub(crate) lost: u64,
}

/// The counts, and what is beside them.
pub(crate) fn text_of(
    alloc: Global,
    counts: &Counts,
    beside: Beside,
) -> Result<String, AllocError> {
    let mut text = String::new(alloc);
    put_times(alloc, &mut text, counts)?;
    put_gauge(alloc, &mut text, "adsd_connections", beside.there)?;
    put_wire(alloc, &mut text, counts, beside)?;
    put_server(alloc, &mut text, counts)?;
    put_reloads(alloc, &mut text, counts)?;
    put_ticks(alloc, &mut text, counts)?;
    put_store(alloc, &mut text, counts)?;
    put_gauge(alloc, &mut text, "adsd_store_held", u64::from(counts.held))?;
    put_counter(alloc, &mut text, "adsd_log_lines_lost_total", beside.lost)?;
    Ok(text)
}

fn put_times(alloc: Global, text: &mut String, counts: &Counts) -> Result<(), AllocError> {
    let start = unix_seconds(counts.start);
    put_gauge(alloc, text, "adsd_start_time_seconds", start)?;
    let now = unix_seconds(counts.now);
    put_gauge(alloc, text, "adsd_last_tick_time_seconds", now)
}

fn put_wire(
    alloc: Global,
    text: &mut String,
    counts: &Counts,
    beside: Beside,
) -> Result<(), AllocError> {
    put_counters(
        alloc,
        text,
        &[
            ("adsd_connections_total", counts.connections),
            ("adsd_refused_peers_total", beside.refused),
            ("adsd_bytes_in_total", counts.bytes_in),
            ("adsd_bytes_out_total", counts.bytes_out),
            ("adsd_short_offers_total", counts.short),
        ],
    )
}

fn put_server(alloc: Global, text: &mut String, counts: &Counts) -> Result<(), AllocError> {
    put_counters(
        alloc,
        text,
        &[
            ("adsd_requests_total", counts.served.requests),
            ("adsd_replies_total", counts.served.replies),
            ("adsd_samples_total", counts.served.samples),
            ("adsd_description_read_faults_total", counts.failed_readings),
        ],
    )
}

// One name with two labels.
fn put_reloads(alloc: Global, text: &mut String, counts: &Counts) -> Result<(), AllocError> {
    text.push_str("# TYPE adsd_reloads_total counter\n")?;
    let n = counts.reloads;
    let line = format!(in alloc; "adsd_reloads_total{{outcome=\"accepted\"}} {n}\n")?;
    text.push_str(line.as_str())?;
    let n = counts.refusals;
    let line = format!(in alloc; "adsd_reloads_total{{outcome=\"refused\"}} {n}\n")?;
    text.push_str(line.as_str())
}

fn put_ticks(alloc: Global, text: &mut String, counts: &Counts) -> Result<(), AllocError> {
    put_counters(
        alloc,
        text,
        &[
            ("adsd_ticks_total", counts.ticks),
            ("adsd_ticks_missed_total", counts.missed),
        ],
    )?;
    put_time(alloc, text, "adsd_tick_late_seconds_max", counts.late)
}

fn put_store(alloc: Global, text: &mut String, counts: &Counts) -> Result<(), AllocError> {
    put_counters(
        alloc,
        text,
        &[
            ("adsd_saves_total", counts.saves),
            ("adsd_store_faults_total", counts.store_faults),
        ],
    )?;
    let saved = unix_seconds(counts.saved);
    put_gauge(alloc, text, "adsd_last_save_time_seconds", saved)?;
    put_time(alloc, text, "adsd_last_save_seconds", counts.save_time)
}

fn put_counters(alloc: Global, text: &mut String, rows: &[(&str, u64)]) -> Result<(), AllocError> {
    for (name, n) in rows {
        put_counter(alloc, text, name, *n)?;
    }
    Ok(())
}

fn put_counter(alloc: Global, text: &mut String, name: &str, n: u64) -> Result<(), AllocError> {
    let lines = format!(in alloc; "# TYPE {name} counter\n{name} {n}\n")?;
    text.push_str(lines.as_str())
}

fn put_gauge(alloc: Global, text: &mut String, name: &str, n: u64) -> Result<(), AllocError> {
    let lines = format!(in alloc; "# TYPE {name} gauge\n{name} {n}\n")?;
    text.push_str(lines.as_str())
}

// A time in 100 ns, as seconds.
fn put_time(alloc: Global, text: &mut String, name: &str, time: u64) -> Result<(), AllocError> {
    let (whole, part) = (time / 10_000_000, time % 10_000_000);
    let lines = format!(in alloc; "# TYPE {name} gauge\n{name} {whole}.{part:07}\n")?;
    text.push_str(lines.as_str())
}

// The seconds since 1970 of a moment; 0 before.
fn unix_seconds(moment: u64) -> u64 {
    moment.saturating_sub(116_444_736_000_000_000) / 10_000_000
}
