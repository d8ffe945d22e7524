//! Reads the setup that a store holds, and how it grew.
ghost use Rattle.std.specs.Prelude.{◌≡◌, ◌≢◌, ◌<◌, ◌^◌, ◌++◌, ◌∷◌, [], ℕ, ℤ, List, All, None, Some};
ghost use Rattle.std.specs.Prelude.{IfOk, IfSome, IfNone, OnOk, decimal, string_bytes};
ghost use Rattle.std.specs.Str.{IsUtf8};
ghost use Rattle.nest_core.specs.declared.growth.Growth.{Growth};
ghost use Rattle.nest_core.specs.Museum.{Museum};
ghost use Rattle.nest_core.specs.SetupTexts.{setup_rows};
ghost use Rattle.sqlite.specs.Held.{state};
ghost use Rattle.sqlite.specs.Order.{column};
ghost use Rattle.sqlite.specs.State.{HasCleanDisk};
ghost use Rattle.sqlite.specs.declared.types.Value.TheVariants.{Text};
ghost use Rattle.register_sql.specs.Binding.{IsSettled};
ghost use Rattle.register_sql.specs.Failing.{IsReading};
ghost use Rattle.register_sql.specs.Says.{setup_rows_shown};
ghost use Rattle.register_sql.specs.Shown.{setup_shown};
ghost use Rattle.register_sql.specs.StoredSetups.{AreGrowthsIn, AreSetupRows, FitsGrowth};
ghost use Rattle.register_sql.specs.StoredSetups.{HoldsSetup, IsPlain, LacksSetup, ReadsBack};
ghost use Rattle.register_sql.specs.StoredSetups.{file_of, growth_text, plain_rows};

use crate::identity::are_setup;
use crate::queries::{Query, read};
use crate::schema::tables_made;
use codes_core::NoMemory;
use nest_core::{Growth, Listed, Setup, SetupFault};
use register_store::row_texts;
use sqlite::{Alter, Connection, Error, Row};
use sqlite_value::value::ValueRef;
use std::alloc::Global;

/// The number that the text writes. None if it writes no number below 2^32.
fn number_in(text: &str) -> Option<u32>
    ensures { (n : ℕ) → n < 2 ^ 32 → text.now ≡ decimal n → result ≡ Some n }
{
    match text.parse() {
        Ok(number) => Some(number),
        Err(_) => None,
    }
}

/// The growth that the text of a row describes. None if it describes no growth.
fn growth_in_text(text: &str) -> Option<Growth>
    ensures growth { (g : Growth) → FitsGrowth g → text.now ≡ growth_text g → result ≡ Some g }
    ensures plain { IsPlain text.now → result ≡ None }
{
    let (word, numbers) = text.split_once(',')?;
    if word != "grew" {
        return None;
    }
    let (after, listed) = numbers.split_once(',')?;
    let (places, things) = listed.split_once(',')?;
    Some(Growth {
        after: number_in(after)?,
        listed: Listed {
            places: number_in(places)?,
            things: number_in(things)?,
        },
    })
}

/// The text of a row. None if its second column isn't text.
fn text_of(row: &Row) -> Option<&str>
    ensures some { IfSome result (λ text. column row.now 1 ≡ Text text.now) }
    ensures none { IfNone result ((id : ℤ) (text : List ℕ) → IsUtf8 text
        → row.now ≢ setup_shown (record { id = id; text = text })) }
{
    match row.get_ref(1) {
        Ok(ValueRef::Text(bytes)) => match str::from_utf8(bytes) {
            Ok(text) => Some(text),
            Err(_) => None,
        },
        _ => None,
    }
}

/// The growth that a row of the setup describes. None if it describes no growth.
fn growth_in(row: &Row) -> Option<Growth>
    ensures growth { (id : ℤ) (g : Growth) → FitsGrowth g
        → row.now ≡ setup_shown (record { id = id; text = growth_text g }) → result ≡ Some g }
    ensures plain { (id : ℤ) (text : List ℕ) → IsPlain text
        → row.now ≡ setup_shown (record { id = id; text = text }) → result ≡ None }
{
    growth_in_text(text_of(row)?)
}

/// Returns the growths among the rows of a setup, in their order. Fails with `NoMemory`.
fn growths_in(alloc: Global, rows: &[Row]) -> Result<Vec<Growth>, NoMemory>
    ensures { IfOk result (λ growths. (S : Museum) → All FitsGrowth S.growths
        → rows.now ≡ setup_rows_shown (setup_rows S) → growths.items ≡ S.growths) }
{
    let mut growths = Vec::new(alloc);
    'rows: for i in 0..rows.len() {
        if let Some(growth) = growth_in(&rows[i]) {
            growths.push(growth)?;
        }
    }
    Ok(growths)
}

/// Adds the text of a row of the setup to a setup file, unless the row describes a growth. Fails
/// with `NoMemory`.
fn add_line(file: &mut String, row: &Row) -> Result<(), NoMemory>
    ensures plain { (id : ℤ) (text : List ℕ) → IsPlain text → IsUtf8 text
        → row.now ≡ setup_shown (record { id = id; text = text })
        → OnOk result (string_bytes file.new ≡ string_bytes file.old ++ text ++ 10 ∷ []) }
    ensures growth { (id : ℤ) (g : Growth) → FitsGrowth g
        → row.now ≡ setup_shown (record { id = id; text = growth_text g })
        → OnOk result (string_bytes file.new ≡ string_bytes file.old) }
{
    if growth_in(row).is_some() {
        return Ok(());
    }
    if let Some(text) = text_of(row) {
        file.push_str(text)?;
        file.push_str("\n")?;
    }
    Ok(())
}

/// Returns the rows that aren't those of growths, as the text of a setup file. Fails with
/// `NoMemory`.
fn plain_text(alloc: Global, rows: &[Row]) -> Result<String, NoMemory>
    ensures { IfOk result (λ file. (S : Museum) → All IsUtf8 (plain_rows S)
        → All FitsGrowth S.growths → rows.now ≡ setup_rows_shown (setup_rows S)
        → string_bytes file ≡ file_of (plain_rows S)) }
{
    let mut file = String::new(alloc);
    'rows: for i in 0..rows.len() {
        add_line(&mut file, &rows[i])?;
    }
    Ok(file)
}

/// Returns the setup that has these rows. None if there is none. Fails with `NoMemory`.
fn setup_in(alloc: Global, rows: &[Row]) -> Result<Option<Setup>, NoMemory>
    ensures some { IfOk result (λ found. IfSome found
        (λ setup. rows.now ≡ setup_rows_shown (setup_rows setup))) }
    ensures none { IfOk result (λ found. IfNone found ((S : Museum) → ReadsBack S
        → rows.now ≡ setup_rows_shown (setup_rows S) → ⊥)) }
{
    let growths = growths_in(alloc, rows)?;
    let file = plain_text(alloc, rows)?;
    let plain = match Setup::read(alloc, file.as_bytes()) {
        Ok(setup) => setup,
        Err(SetupFault::NoMemory) => return Err(NoMemory),
        Err(_) => return Ok(None),
    };
    let Some(setup) = plain.with_growths(growths) else {
        return Ok(None);
    };
    let texts = row_texts(alloc, &setup)?;
    if are_setup(rows, &texts) {
        Ok(Some(setup))
    } else {
        Ok(None)
    }
}

/// Returns the rows of the table `setup`, in the order of their numbers; none if the database has
/// no such table. The store stays as it was. The inner fault is NoMemory, the outer error that of a
/// failed statement, after which the connection may be closed.
fn setup_rows<S: Alter>(
    alloc: Global,
    conn: &mut Connection<S>,
) -> Result<Result<Vec<Row>, NoMemory>, Error>
    requires settled { HasCleanDisk (state S.Store conn.old) → IsSettled (state S.Store conn.old) }
    ensures rows { HasCleanDisk (state S.Store conn.new) → IfOk result (λ answer. IfOk answer
        (λ rows. AreSetupRows (state S.Store conn.old).now rows.items)) }
    ensures reading { IsReading (state S.Store conn.old) (state S.Store conn.new) result }
{
    let found = match tables_made(alloc, conn.schema()) {
        Ok(found) => found,
        Err(_) => return Ok(Err(NoMemory)),
    };
    match found {
        Some(made) if made >= 2 => {
            let rows = read(conn, Query::Setups, made)?;
            Ok(Ok(rows))
        }
        _ => {
            let rows = Vec::new(alloc);
            Ok(Ok(rows))
        }
    }
}

/// Returns how the setup of the store grew, the newest growth first. The store stays as it was. The
/// inner fault is NoMemory, the outer error that of a failed statement, after which the connection
/// may be closed.
pub(crate) fn growths<S: Alter>(
    alloc: Global,
    conn: &mut Connection<S>,
) -> Result<Result<Vec<Growth>, NoMemory>, Error>
    requires settled { HasCleanDisk (state S.Store conn.old) → IsSettled (state S.Store conn.old) }
    ensures growths { HasCleanDisk (state S.Store conn.new) → IfOk result (λ answer. IfOk answer
        (λ growths. AreGrowthsIn (state S.Store conn.old).now growths.items)) }
    ensures reading { IsReading (state S.Store conn.old) (state S.Store conn.new) result }
{
    let found = setup_rows(alloc, conn)?;
    match found {
        Ok(rows) => Ok(growths_in(alloc, &rows)),
        Err(fault) => Ok(Err(fault)),
    }
}

/// Returns the setup that the store holds, and None if its rows are those of no setup. The store
/// stays as it was. The inner fault is NoMemory, the outer error that of a failed statement, after
/// which the connection may be closed.
pub(crate) fn setup<S: Alter>(
    alloc: Global,
    conn: &mut Connection<S>,
) -> Result<Result<Option<Setup>, NoMemory>, Error>
    requires settled { HasCleanDisk (state S.Store conn.old) → IsSettled (state S.Store conn.old) }
    ensures held { HasCleanDisk (state S.Store conn.new) → IfOk result (λ answer. IfOk answer
        (λ found. IfSome found (HoldsSetup (state S.Store conn.old).now))) }
    ensures none { HasCleanDisk (state S.Store conn.new) → IfOk result (λ answer. IfOk answer
        (λ found. IfNone found (LacksSetup (state S.Store conn.old).now))) }
    ensures reading { IsReading (state S.Store conn.old) (state S.Store conn.new) result }
{
    let found = setup_rows(alloc, conn)?;
    match found {
        Ok(rows) => Ok(setup_in(alloc, &rows)),
        Err(fault) => Ok(Err(fault)),
    }
}
