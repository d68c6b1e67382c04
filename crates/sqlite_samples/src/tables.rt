//! The two tables of a file of samples.

use crate::statements::{add_row, add_to_total, begin, commit, make_tables, rows_of, take_back};
use ads_base::Octets;
use byteorder::{BigEndian, ByteOrder};
use sample_store::{Row, Total};
use sqlite::{Alter, Connection, Error, ErrorCode, params};

/// What is there of the two tables.
const TABLES: &str =
    "SELECT name FROM sqlite_schema WHERE name COLLATE NOCASE = 'sample' OR name COLLATE NOCASE = 'total'";

/// The greatest number.
const LAST: &str = "SELECT max(number) FROM sample";

/// Names that have other rows than their total counts, or none.
const UNCOUNTED: &str =
    "SELECT name, count(*), max(number) FROM sample GROUP BY name EXCEPT SELECT name, count, last FROM total";

/// Totals that are not those of their last row.
const UNFOUNDED: &str = "SELECT 1 FROM total LEFT JOIN sample ON sample.number = total.last
    WHERE sample.name IS NOT total.name OR sample.time IS NOT total.time OR sample.bytes IS NOT total.bytes LIMIT 1";

/// Makes the tables where neither is there, and gives the greatest number, 0 where there is none. Tables whose totals are not
/// those of their rows are damaged, and what has only one of the tables is another's file: neither is written.
pub fn last_number<S: Alter>(conn: &mut Connection<S>) -> Result<u64, Error> {
    let found = rows_of(conn, TABLES, &[])?.len();
    if found == 0 {
        make_tables(conn)?;
        return Ok(0);
    }
    if found != 2 {
        return Err(Error::SqliteFailure(ErrorCode::NotADatabase));
    }
    if !are_folded(conn)? {
        return Err(Error::SqliteFailure(ErrorCode::DatabaseCorrupt));
    }
    greatest(conn)
}

// Whether each total is that of the rows of its name, and each name has one.
fn are_folded<S: Alter>(conn: &mut Connection<S>) -> Result<bool, Error> {
    let uncounted = rows_of(conn, UNCOUNTED, &[])?;
    let unfounded = rows_of(conn, UNFOUNDED, &[])?;
    Ok(uncounted.is_empty() && unfounded.is_empty())
}

fn greatest<S: Alter>(conn: &mut Connection<S>) -> Result<u64, Error> {
    let rows = rows_of(conn, LAST, &[])?;
    match rows.first() {
        None => Err(Error::QueryReturnedNoRows),
        Some(row) => number_or_none(row),
    }
}

fn number_or_none(row: &sqlite::Row) -> Result<u64, Error> {
    let last: Option<Vec<u8>> = row.get(0)?;
    match last {
        None => Ok(0),
        Some(bytes) => word_in(&bytes),
    }
}

// The number in eight bytes.
fn word_in(bytes: &Vec<u8>) -> Result<u64, Error> {
    if bytes.len() != 8 {
        return Err(Error::SqliteFailure(ErrorCode::DatabaseCorrupt));
    }
    Ok(BigEndian::read_u64(bytes.as_slice()))
}

/// Puts a row in both tables, or in none; nothing where its number is there. A transaction is begun where none is open, and
/// stays open.
pub fn put_row<S: Alter>(conn: &mut Connection<S>, row: &Row) -> Result<(), Error> {
    if conn.is_autocommit() {
        begin(conn)?;
    }
    put_in_both(conn, row)
}

fn put_in_both<S: Alter>(conn: &mut Connection<S>, row: &Row) -> Result<(), Error> {
    let number = row.number.to_be_bytes();
    let time = row.time.to_be_bytes();
    let name = row.name.as_slice();
    let bytes = row.bytes.as_slice();
    if !add_row(conn, &number, name, &time, bytes)? {
        return Ok(());
    }
    match add_to_total(conn, &number, name, &time, bytes) {
        Ok(()) => Ok(()),
        Err(error) => {
            take_back(conn, &number);
            Err(error)
        }
    }
}

/// Ends the transaction that is open: its rows stay, or where this fails none of them does.
pub fn settle_rows<S: Alter>(conn: &mut Connection<S>) -> Result<(), Error> {
    if conn.is_autocommit() {
        return Ok(());
    }
    commit(conn)
}

/// The total of a name, where a row has it.
pub fn total_of<S: Alter>(conn: &mut Connection<S>, name: &[u8]) -> Result<Option<Total>, Error> {
    let rows = rows_of(
        conn,
        "SELECT count, time, bytes FROM total WHERE name = ?1",
        params![name],
    )?;
    match rows.first() {
        None => Ok(None),
        Some(row) => Ok(Some(total_in(row)?)),
    }
}

fn total_in(row: &sqlite::Row) -> Result<Total, Error> {
    let count = number_in(row, 0)?;
    let time = bytes_in(row, 1)?;
    let bytes = bytes_in(row, 2)?;
    Ok(Total {
        count,
        time: word_in(&time)?,
        bytes: Octets::from_vec(bytes),
    })
}

// The number in a column.
fn number_in(row: &sqlite::Row, at: usize) -> Result<u64, Error> {
    let number: i64 = row.get(at)?;
    if number < 0 {
        return Err(Error::SqliteFailure(ErrorCode::DatabaseCorrupt));
    }
    Ok(number as u64)
}

// The bytes in a column.
fn bytes_in(row: &sqlite::Row, at: usize) -> Result<Vec<u8>, Error> {
    row.get(at)
}
