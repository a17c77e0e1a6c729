//! The table, and its statements.

ghost use Rattle.std.specs.Prelude.{◌≡◌, ◌++◌, ◌∷◌, ℕ, nat_eq, true, List, [], map, Some, IsTrue, IfOk, OnErr, OnOk};
ghost use Rattle.std.specs.List.{starts_with};
ghost use Rattle.sqlite.specs.declared.types.Value.TheVariants as value;
ghost use Rattle.sqlite.specs.Order.{column};
ghost use Rattle.sqlite.specs.State.{HasCleanDisk, IsUnchanged};
ghost use Rattle.sqlite.specs.Held.{state};
ghost use Rattle.ep_outside.specs.Kept.{after, key_cmp, listed, put_in, value_at, with, without};
ghost use Rattle.ep_outside.specs.declared.keeper.Pair.{Pair};
ghost use Rattle.ep_keep_sql.specs.Inside.{Finds, IsFound, IsSettled, Makes, Rests, Steps};
ghost use Rattle.ep_keep_sql.specs.Keeps.{Goes};
ghost use Rattle.ep_keep_sql.specs.KeptTable.{kept_schema, no_schema};
ghost use Rattle.ep_keep_sql.specs.Told.{Holds, ShowsListed, shows};

use crate::prefix::end_of_prefix;
use ep_outside::{Pair, Pairs, Put, Text};
use ep_units::NoMemory;
use sqlite::{Alter, Connection, Error, ErrorCode, Row, Transaction, params};
use std::alloc::Global;
use std::cmp::Ordering;

const MAKE: &str =
    "CREATE TABLE IF NOT EXISTS kept(name TEXT PRIMARY KEY NOT NULL, value TEXT NOT NULL)";

const GET: &str = "SELECT value FROM kept WHERE name = ?1";

const PUT: &str =
    "INSERT INTO kept (name, value) VALUES (?1, ?2) ON CONFLICT (name) DO UPDATE SET value = excluded.value";

const REMOVE: &str = "DELETE FROM kept WHERE name = ?1";

const FROM: &str = "SELECT name, value FROM kept WHERE name >= ?1 ORDER BY name";

const BETWEEN: &str = "SELECT name, value FROM kept WHERE name >= ?1 AND name < ?2 ORDER BY name";

const OUT_OF_MEMORY: Error = Error::SqliteFailure(ErrorCode::OutOfMemory);

/// Makes the table where it is not there yet.
pub fn make_table<S: Alter>(conn: &mut Connection<S>) -> Result<(), Error>
    ensures made { HasCleanDisk (state S.Store conn.new) → (state S.Store conn.old).now.schema ≡ no_schema → OnOk result (Holds (state S.Store conn.new).now [] × IsTrue (state S.Store conn.new).is_open) }
    ensures again { HasCleanDisk (state S.Store conn.new) → (state S.Store conn.old).now.schema ≡ kept_schema → OnOk result (IsUnchanged (state S.Store conn.old) (state S.Store conn.new)) }
{
    match conn.execute(MAKE, &[]) {
        Ok(_) => Ok(()),
        Err(error) => Err(error),
    }
}

// Outside a transaction, as between the calls of a keeper.
fn settled<S: Alter>(conn: &Connection<S>) -> Result<(), Error>
    ensures { OnOk result (IsSettled (state S.Store conn.now)) }
{
    if conn.is_autocommit() {
        Ok(())
    } else {
        Err(Error::SqliteFailure(ErrorCode::TransactionState))
    }
}

fn row_of<S: Alter>(conn: &mut Connection<S>, key: &str) -> Result<Row, Error>
    ensures goes { Goes (state S.Store conn.old) (state S.Store conn.new) }
    ensures row { HasCleanDisk (state S.Store conn.new) → (m : List Pair) → Holds (state S.Store conn.old).now m → Finds m key.now result }
    ensures same { (m : List Pair) → Holds (state S.Store conn.old).now m → IsSettled (state S.Store conn.old) → Rests (state S.Store conn.old) (state S.Store conn.new) }
    ensures opens { HasCleanDisk (state S.Store conn.new) → IsFound result → IsTrue (state S.Store conn.new).is_open }
{
    conn.query_row(GET, params![key])
}

/// What stands under a key.
pub fn value_of<S: Alter>(conn: &mut Connection<S>, key: &str) -> Result<Option<Text>, Error>
    ensures goes { Goes (state S.Store conn.old) (state S.Store conn.new) }
    ensures value { HasCleanDisk (state S.Store conn.new) → (m : List Pair) → Holds (state S.Store conn.old).now m → IfOk result (λ v. v ≡ value_at m key.now) }
    ensures same { (m : List Pair) → Holds (state S.Store conn.old).now m → Rests (state S.Store conn.old) (state S.Store conn.new) }
    ensures opens { HasCleanDisk (state S.Store conn.new) → OnOk result (IsTrue (state S.Store conn.new).is_open) }
{
    settled(conn)?;
    match row_of(conn, key) {
        Ok(row) => Ok(Some(text_in(&row, 0)?)),
        Err(Error::QueryReturnedNoRows) => Ok(None),
        Err(error) => Err(error),
    }
}

fn text_in(row: &Row, at: usize) -> Result<Text, Error>
    ensures { IfOk result (λ t. column row.now at ≡ value.Text t) }
{
    Ok(Text::from_string(row.get(at)?))
}

fn put_value<S: Alter>(
    transaction: &mut Transaction<'_, S>,
    key: &str,
    value: &str,
) -> Result<usize, Error>
    ensures same_reference { transaction.new.conn.ghost_name ≡ transaction.old.conn.ghost_name }
    ensures steps { Steps (state S.Store transaction.old.conn.now) (state S.Store transaction.new.conn.now) result }
    ensures makes { Makes (state S.Store transaction.old.conn.now) (state S.Store transaction.new.conn.now) (λ m. with m key.now value.now) result }
{
    transaction.execute(PUT, params![key, value])
}

fn remove_value<S: Alter>(transaction: &mut Transaction<'_, S>, key: &str) -> Result<usize, Error>
    ensures same_reference { transaction.new.conn.ghost_name ≡ transaction.old.conn.ghost_name }
    ensures steps { Steps (state S.Store transaction.old.conn.now) (state S.Store transaction.new.conn.now) result }
    ensures makes { Makes (state S.Store transaction.old.conn.now) (state S.Store transaction.new.conn.now) (λ m. without m key.now) result }
{
    transaction.execute(REMOVE, params![key])
}

fn put_one<S: Alter>(transaction: &mut Transaction<'_, S>, put: &Put) -> Result<usize, Error>
    ensures same_reference { transaction.new.conn.ghost_name ≡ transaction.old.conn.ghost_name }
    ensures steps { Steps (state S.Store transaction.old.conn.now) (state S.Store transaction.new.conn.now) result }
    ensures makes { Makes (state S.Store transaction.old.conn.now) (state S.Store transaction.new.conn.now) (λ m. put_in m put.now.key put.now.value) result }
{
    match &put.value {
        Some(value) => put_value(transaction, put.key.as_str(), value.as_str()),
        None => remove_value(transaction, put.key.as_str()),
    }
}

fn put_each<S: Alter>(transaction: &mut Transaction<'_, S>, puts: &[Put]) -> Result<(), Error>
    ensures same_reference { transaction.new.conn.ghost_name ≡ transaction.old.conn.ghost_name }
    ensures steps { Steps (state S.Store transaction.old.conn.now) (state S.Store transaction.new.conn.now) result }
    ensures makes { Makes (state S.Store transaction.old.conn.now) (state S.Store transaction.new.conn.now) (λ m. after m puts.now) result }
{
    for put in puts {
        put_one(transaction, put)?;
    }
    Ok(())
}

/// Puts all of them as one transaction, or none.
pub fn put_all<S: Alter>(conn: &mut Connection<S>, puts: &[Put]) -> Result<(), Error>
    ensures goes { Goes (state S.Store conn.old) (state S.Store conn.new) }
    ensures all { HasCleanDisk (state S.Store conn.new) → (m : List Pair) → Holds (state S.Store conn.old).now m → OnOk result (Holds (state S.Store conn.new).now (after m puts.now)) }
    ensures committed { HasCleanDisk (state S.Store conn.new) → OnOk result ((state S.Store conn.new).committed ≡ (state S.Store conn.new).now) }
    ensures opens { HasCleanDisk (state S.Store conn.new) → OnOk result (IsTrue (state S.Store conn.new).is_open) }
    ensures none { HasCleanDisk (state S.Store conn.new) → IsTrue (state S.Store conn.new).is_open
        → OnErr result (((state S.Store conn.new).now ≡ (state S.Store conn.old).now) × ((state S.Store conn.new).committed ≡ (state S.Store conn.old).committed)) }
{
    if !conn.is_autocommit() {
        return Err(Error::SqliteFailure(ErrorCode::TransactionState));
    }
    let mut transaction = conn.transaction();
    put_each(&mut transaction, puts)?;
    transaction.commit()
}

fn pair_in(row: &Row) -> Result<Pair, Error>
    ensures { (p : Pair) → row.now ≡ shows p → IfOk result (λ pair. pair ≡ p) }
{
    Ok(Pair {
        key: text_in(row, 0)?,
        value: text_in(row, 1)?,
    })
}

fn push_listed(items: &mut Vec<Pair>, pair: Pair, prefix: &str) -> Result<(), Error>
    ensures { OnOk result (items.new.items ≡ items.old.items ++ listed (pair ∷ []) prefix.now) }
{
    if pair.key.as_str().as_bytes().starts_with(prefix.as_bytes()) {
        items.push(pair)?;
    }
    Ok(())
}

// The pairs of the rows whose keys begin so.
fn pairs_in(alloc: Global, rows: &[Row], prefix: &str) -> Result<Pairs, Error>
    ensures { (ps : List Pair) → rows.now ≡ map shows ps → IfOk result (λ pairs. pairs ≡ listed ps prefix.now) }
{
    let mut items = Vec::new(alloc);
    for row in rows {
        push_listed(&mut items, pair_in(row)?, prefix)?;
    }
    Ok(Pairs { items })
}

fn rows_from<S: Alter>(conn: &mut Connection<S>, prefix: &str) -> Result<Vec<Row>, Error>
    ensures goes { Goes (state S.Store conn.old) (state S.Store conn.new) }
    ensures rows { HasCleanDisk (state S.Store conn.new) → (m : List Pair) → Holds (state S.Store conn.old).now m → IfOk result (λ rows. ShowsListed m prefix.now rows.items) }
    ensures same { (m : List Pair) → Holds (state S.Store conn.old).now m → IsSettled (state S.Store conn.old) → Rests (state S.Store conn.old) (state S.Store conn.new) }
    ensures opens { HasCleanDisk (state S.Store conn.new) → OnOk result (IsTrue (state S.Store conn.new).is_open) }
{
    conn.query_all(FROM, params![prefix])
}

fn rows_between<S: Alter>(
    conn: &mut Connection<S>,
    prefix: &str,
    end: &str,
) -> Result<Vec<Row>, Error>
    ensures goes { Goes (state S.Store conn.old) (state S.Store conn.new) }
    ensures rows { ((n : List ℕ) → starts_with nat_eq n prefix.now ≡ true → key_cmp n end.now ≡ Ordering.Less) → HasCleanDisk (state S.Store conn.new)
        → (m : List Pair) → Holds (state S.Store conn.old).now m → IfOk result (λ rows. ShowsListed m prefix.now rows.items) }
    ensures same { (m : List Pair) → Holds (state S.Store conn.old).now m → IsSettled (state S.Store conn.old) → Rests (state S.Store conn.old) (state S.Store conn.new) }
    ensures opens { HasCleanDisk (state S.Store conn.new) → OnOk result (IsTrue (state S.Store conn.new).is_open) }
{
    conn.query_all(BETWEEN, params![prefix, end])
}

// The rows from the prefix on, by key, up to where no text begins so.
fn rows_with<S: Alter>(
    conn: &mut Connection<S>,
    alloc: Global,
    prefix: &str,
) -> Result<Vec<Row>, Error>
    ensures goes { Goes (state S.Store conn.old) (state S.Store conn.new) }
    ensures rows { HasCleanDisk (state S.Store conn.new) → (m : List Pair) → Holds (state S.Store conn.old).now m → IfOk result (λ rows. ShowsListed m prefix.now rows.items) }
    ensures same { (m : List Pair) → Holds (state S.Store conn.old).now m → IsSettled (state S.Store conn.old) → Rests (state S.Store conn.old) (state S.Store conn.new) }
    ensures opens { HasCleanDisk (state S.Store conn.new) → OnOk result (IsTrue (state S.Store conn.new).is_open) }
{
    let Ok(end) = end_of_prefix(alloc, prefix) else {
        return Err(OUT_OF_MEMORY);
    };
    match end {
        Some(end) => rows_between(conn, prefix, end.as_str()),
        None => rows_from(conn, prefix),
    }
}

/// The pairs whose keys begin so, by key.
pub fn pairs_with<S: Alter>(
    conn: &mut Connection<S>,
    alloc: Global,
    prefix: &str,
) -> Result<Pairs, Error>
    ensures goes { Goes (state S.Store conn.old) (state S.Store conn.new) }
    ensures pairs { HasCleanDisk (state S.Store conn.new) → (m : List Pair) → Holds (state S.Store conn.old).now m → IfOk result (λ pairs. pairs ≡ listed m prefix.now) }
    ensures same { (m : List Pair) → Holds (state S.Store conn.old).now m → Rests (state S.Store conn.old) (state S.Store conn.new) }
    ensures opens { HasCleanDisk (state S.Store conn.new) → OnOk result (IsTrue (state S.Store conn.new).is_open) }
{
    settled(conn)?;
    let rows = rows_with(conn, alloc, prefix)?;
    pairs_in(alloc, &rows, prefix)
}
