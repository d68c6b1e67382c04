//! The statements over the tables of samples. Numbers and moments are eight bytes, the high byte first, so that their order
//! is that of the bytes. Each call of the library stands in a function of its own, since each is dear to prove.

use sqlite::types::ValueRef;
use sqlite::{Alter, Connection, Constraint, Error, ErrorCode, Row, params};

/// Makes both tables, or none.
pub fn make_tables<S: Alter>(conn: &mut Connection<S>) -> Result<(), Error> {
    conn.execute_batch(
        "BEGIN;
         CREATE TABLE sample (number BLOB NOT NULL UNIQUE, name BLOB NOT NULL, time BLOB NOT NULL, bytes BLOB NOT NULL) STRICT;
         CREATE TABLE total (name BLOB NOT NULL UNIQUE, count INTEGER NOT NULL, last BLOB NOT NULL,
             time BLOB NOT NULL, bytes BLOB NOT NULL) STRICT;
         COMMIT;",
    )
}

/// The rows of a query with these values.
pub fn rows_of<S: Alter>(
    conn: &mut Connection<S>,
    text: &str,
    values: &[ValueRef<'_>],
) -> Result<Vec<Row>, Error> {
    conn.query_all(text, values)
}

/// Adds a sample, and tells whether its number is new.
pub fn add_row<'a, S: Alter>(
    conn: &mut Connection<S>,
    number: &'a [u8],
    name: &'a [u8],
    time: &'a [u8],
    bytes: &'a [u8],
) -> Result<bool, Error> {
    let added = run(
        conn,
        "INSERT INTO sample (number, name, time, bytes) VALUES (?1, ?2, ?3, ?4)",
        params![number, name, time, bytes],
    );
    match added {
        Ok(_) => Ok(true),
        // A rule that someone gave the table is no number that is there.
        Err(error) => {
            if is_taken(&error) && has_number(conn, number)? {
                Ok(false)
            } else {
                Err(error)
            }
        }
    }
}

// Whether a statement failed for a key that is there.
fn is_taken(error: &Error) -> bool {
    matches!(
        error,
        Error::SqliteFailure(ErrorCode::ConstraintViolation(
            Constraint::Unique | Constraint::PrimaryKey
        ))
    )
}

fn has_number<'a, S: Alter>(conn: &mut Connection<S>, number: &'a [u8]) -> Result<bool, Error> {
    let found = conn.query_all("SELECT 1 FROM sample WHERE number = ?1", params![number])?;
    Ok(!found.is_empty())
}

/// Counts a sample in the total of its name, which has the moment and the bytes of the greatest number.
pub fn add_to_total<'a, S: Alter>(
    conn: &mut Connection<S>,
    number: &'a [u8],
    name: &'a [u8],
    time: &'a [u8],
    bytes: &'a [u8],
) -> Result<(), Error> {
    // Nearly every sample has a greater number than all before it, and its name a total: then one statement does it.
    let last = run(
        conn,
        "UPDATE total SET count = count + 1, last = ?2, time = ?3, bytes = ?4 WHERE name = ?1 AND last < ?2",
        params![name, number, time, bytes],
    )?;
    if last != 0 {
        return Ok(());
    }
    let earlier = run(
        conn,
        "UPDATE total SET count = count + 1 WHERE name = ?1",
        params![name],
    )?;
    if earlier != 0 {
        return Ok(());
    }
    run(
        conn,
        "INSERT INTO total (name, count, last, time, bytes) VALUES (?1, 1, ?2, ?3, ?4)",
        params![name, number, time, bytes],
    )?;
    Ok(())
}

/// Takes away a row whose total was refused, so that the transaction has neither. Where it has ended, so has the row.
pub fn take_back<'a, S: Alter>(conn: &mut Connection<S>, number: &'a [u8]) {
    if conn.is_autocommit() {
        return;
    }
    let taken = run(
        conn,
        "DELETE FROM sample WHERE number = ?1",
        params![number],
    );
    if taken.is_err() {
        roll_back(conn);
    }
}

/// Begins a transaction.
pub fn begin<S: Alter>(conn: &mut Connection<S>) -> Result<(), Error> {
    match run(conn, "BEGIN", &[]) {
        Ok(_) => Ok(()),
        Err(error) => Err(error),
    }
}

/// Ends the transaction that is open; where it can't be kept, it is rolled back.
pub fn commit<S: Alter>(conn: &mut Connection<S>) -> Result<(), Error> {
    match run(conn, "COMMIT", &[]) {
        Ok(_) => Ok(()),
        Err(error) => {
            roll_back(conn);
            Err(error)
        }
    }
}

// Rolls back what is still open.
fn roll_back<S: Alter>(conn: &mut Connection<S>) {
    if !conn.is_autocommit() {
        let _ = run(conn, "ROLLBACK", &[]);
    }
}

// Runs a statement with these values, and tells how many rows it changed.
fn run<S: Alter>(
    conn: &mut Connection<S>,
    text: &str,
    values: &[ValueRef<'_>],
) -> Result<usize, Error> {
    conn.execute(text, values)
}
