//! The table of the records, and the statements on it.
ghost use Rattle.std.specs.Prelude.{◌≡◌, ◌∷◌, [], Ok, Err, None, Some, IfOk, OnOk};
ghost use Rattle.std.specs.FinMap as map;
ghost use Rattle.sqlite_value.specs.declared.value.Value.TheVariants.{Blob};
ghost use Rattle.sqlite.specs.State.{HasCleanDisk};
ghost use Rattle.sqlite.specs.Held.{state};
ghost use Rattle.state_store.specs.Statements.{IsIntact, IsBlank, IsMade, Rests, IsSame, IsInside, PutsInside, StoresAll, kept_in, put_text};

use child_ports::{Bytes, Pair};
use sqlite::{Alter, Connection, Error, ErrorCode, Row, Statement, Transaction, params};

const MAKE: &str = "CREATE TABLE IF NOT EXISTS kept(key TEXT PRIMARY KEY, value BLOB NOT NULL)";

const SELECT: &str = "SELECT value FROM kept WHERE key = ?1";

const PUT: &str = "INSERT OR REPLACE INTO kept(key, value) VALUES (?1, ?2)";

/// Makes the table where it isn't there. One that is there stays as it is.
pub fn make_table<S: Alter>(conn: &mut Connection<S>) -> Result<(), Error>
    ensures made { IsIntact (state S.Store conn.new) → IsBlank (state S.Store conn.old) → OnOk result (IsMade (state S.Store conn.new)) }
    ensures kept { IsIntact (state S.Store conn.new) → Rests (state S.Store conn.old) → OnOk result (IsSame (state S.Store conn.old) (state S.Store conn.new)) }
{
    conn.execute(MAKE, &[])?;
    Ok(())
}

// The row that has the key.
fn find<S: Alter>(conn: &mut Connection<S>, key: &str) -> Result<Row, Error>
    ensures same { IsIntact (state S.Store conn.new) → Rests (state S.Store conn.old) → IsSame (state S.Store conn.old) (state S.Store conn.new) }
    ensures found { IsIntact (state S.Store conn.new) → Rests (state S.Store conn.old) →
        IfOk result (λ row. (value : _) × (row ≡ Blob value ∷ []) × (map.get (kept_in (state S.Store conn.old)) key.now ≡ Some value)) }
    ensures absent { IsIntact (state S.Store conn.new) → Rests (state S.Store conn.old) → result ≡ Err Error.QueryReturnedNoRows → map.get (kept_in (state S.Store conn.old)) key.now ≡ None }
{
    conn.query_row(SELECT, params![key])
}

/// The value of the row that has the key, if there is one.
pub fn select<S: Alter>(conn: &mut Connection<S>, key: &str) -> Result<Option<Bytes>, Error>
    ensures same { IsIntact (state S.Store conn.new) → Rests (state S.Store conn.old) → IsSame (state S.Store conn.old) (state S.Store conn.new) }
    ensures value { IsIntact (state S.Store conn.new) → Rests (state S.Store conn.old) → IfOk result (λ value. value ≡ map.get (kept_in (state S.Store conn.old)) key.now) }
{
    match find(conn, key) {
        Ok(row) => Ok(Some(Bytes::from_vec(row.get(0)?))),
        Err(Error::QueryReturnedNoRows) => Ok(None),
        Err(error) => Err(error),
    }
}

// Puts a pair in a transaction.
fn put<S: Alter>(
    transaction: &mut Transaction<'_, S>,
    statement: &Statement,
    pair: &Pair,
) -> Result<(), Error>
    ensures same_reference { transaction.new.conn.ghost_name ≡ transaction.old.conn.ghost_name }
    ensures put { HasCleanDisk (state S.Store transaction.new.conn.now) → statement.now.text ≡ put_text → IsInside (state S.Store transaction.old.conn.now) →
        OnOk result (PutsInside (pair.now ∷ []) (state S.Store transaction.old.conn.now) (state S.Store transaction.new.conn.now)) }
    ensures uncommitted { IsIntact (state S.Store transaction.new.conn.now) → IsInside (state S.Store transaction.old.conn.now) →
        (state S.Store transaction.new.conn.now).committed ≡ (state S.Store transaction.old.conn.now).committed }
    ensures clean { HasCleanDisk (state S.Store transaction.new.conn.now) → HasCleanDisk (state S.Store transaction.old.conn.now) }
{
    transaction.execute_prepared(statement, params![pair.key.as_str(), pair.value.as_slice()])?;
    Ok(())
}

// Puts each pair, in order, in a transaction.
fn put_each<S: Alter>(
    transaction: &mut Transaction<'_, S>,
    statement: &Statement,
    pairs: &[Pair],
) -> Result<(), Error>
    ensures same_reference { transaction.new.conn.ghost_name ≡ transaction.old.conn.ghost_name }
    ensures put { HasCleanDisk (state S.Store transaction.new.conn.now) → statement.now.text ≡ put_text → IsInside (state S.Store transaction.old.conn.now) →
        OnOk result (PutsInside pairs.now (state S.Store transaction.old.conn.now) (state S.Store transaction.new.conn.now)) }
    ensures uncommitted { IsIntact (state S.Store transaction.new.conn.now) → statement.now.text ≡ put_text → IsInside (state S.Store transaction.old.conn.now) →
        (state S.Store transaction.new.conn.now).committed ≡ (state S.Store transaction.old.conn.now).committed }
    ensures clean { HasCleanDisk (state S.Store transaction.new.conn.now) → HasCleanDisk (state S.Store transaction.old.conn.now) }
{
    for pair in pairs {
        put(transaction, statement, pair)?;
    }
    Ok(())
}

/// Puts each pair, in order, in one transaction. A statement that is refused rolls it back.
pub fn put_all<S: Alter>(conn: &mut Connection<S>, pairs: &[Pair]) -> Result<(), Error>
    ensures { IsIntact (state S.Store conn.new) → Rests (state S.Store conn.old) → StoresAll pairs.now (state S.Store conn.old) (state S.Store conn.new) result }
{
    let statement = conn.prepare(PUT)?;
    if !conn.is_autocommit() {
        return Err(Error::SqliteFailure(ErrorCode::TransactionState));
    }
    let mut transaction = conn.transaction();
    put_each(&mut transaction, &statement, pairs)?;
    transaction.commit()
}
