//! The connections of the service: SQLite databases, each in its own memory.
use bb8::BlockingManager;
use sqlite::{Connection, Error, MemStore, params};
use std::alloc::Global;

/// A connection to a database of its own.
pub type Database = Connection<MemStore>;

/// The transactions that were written, as counted by the threads or found in databases.
#[derive(Clone, Copy, Default)]
pub struct Sums {
    /// Committed transactions.
    pub committed: u64,
    /// Transactions that were left open.
    pub left_open: u64,
    /// Rows in databases.
    pub rows: u64,
    /// The sum of their amounts.
    pub amount: u64,
}

impl Sums {
    /// Returns the sum of both.
    pub fn plus(self, other: Sums) -> Sums {
        Sums {
            committed: self.committed.saturating_add(other.committed),
            left_open: self.left_open.saturating_add(other.left_open),
            rows: self.rows.saturating_add(other.rows),
            amount: self.amount.saturating_add(other.amount),
        }
    }
}

/// Writes a row in a transaction. If the table refuses the row, the transaction stays open.
pub fn write(database: &mut Database, amount: u32) -> Result<(), Error> {
    database.execute("BEGIN", &[])?;
    database.execute("INSERT INTO visit (amount) VALUES (?1)", params![amount])?;
    database.execute("COMMIT", &[])?;
    Ok(())
}

/// Returns the rows of a database and their sum.
pub fn held(database: &mut Database) -> Result<Sums, Error> {
    let row = database.query_row("SELECT COUNT(*), COALESCE(SUM(amount), 0) FROM visit", &[])?;
    Ok(Sums {
        rows: row.get(0)?,
        amount: row.get(1)?,
        ..Sums::default()
    })
}

/// Opens databases in memory.
#[derive(Drop)]
pub struct Databases {
    /// The allocator of the databases.
    pub alloc: Global,
}

impl BlockingManager for Databases {
    type Connection = Database;

    type Error = Error;

    /// Opens a database, with a table that takes rows with a positive amount.
    fn connect(&self) -> Result<Database, Error> {
        let mut database = Connection::open_in_memory(self.alloc)?;
        database.execute(
            "CREATE TABLE visit (id INTEGER PRIMARY KEY, amount INTEGER NOT NULL CHECK (amount > 0)) STRICT",
            &[],
        )?;
        Ok(database)
    }

    /// A database is valid if it answers a query.
    fn is_valid(&self, database: &mut Database) -> Result<(), Error> {
        database.query_row("SELECT 1", &[]).map(|_| ())
    }

    /// A database is broken if its transaction was left open.
    fn has_broken(&self, database: &mut Database) -> bool {
        !database.is_autocommit()
    }
}
