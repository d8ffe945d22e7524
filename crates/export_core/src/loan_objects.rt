//! The rows of the table `loan_object`, and the loans of the things.
ghost use Rattle.std.specs.Prelude.{◌≡◌, ◌++◌, IfOk, OnOk, map, string_bytes};
ghost use Rattle.std.specs.List.{flat_map};
ghost use Rattle.reports.specs.Terms.{agreement_with};
ghost use Rattle.export_core.specs.Loans.{all_lent, all_object_rows, lent_if, lent_text};
ghost use Rattle.export_core.specs.Loans.{lent_texts, object_row, object_rows};

use crate::literals::literal;
use crate::statements::row;
use codes_core::{LoanCode, NoMemory, ThingCode};
use posting_core::Ledger;
use reports::sections::{Terms, Value, agreed_terms, is_out, stage_if, stage_of};
use std::alloc::Global;

/// Returns the rows of the objects of all agreed loans. Fails with `NoMemory`.
pub(crate) fn object_rows(alloc: Global, ledger: &Ledger) -> Result<Vec<String>, NoMemory>
    ensures { IfOk result (λ rows. map string_bytes rows.items ≡ all_object_rows ledger.now) }
{
    let mut rows = Vec::new(alloc);
    for i in 0..ledger.loan_count() {
        push_objects(alloc, ledger, &ledger.loan_at(i), &mut rows)?;
    }
    Ok(rows)
}

/// Adds the rows of a loan's objects.
fn push_objects(
    alloc: Global,
    ledger: &Ledger,
    loan: &LoanCode,
    rows: &mut Vec<String>,
) -> Result<(), NoMemory>
    ensures { OnOk result (map string_bytes rows.new.items
        ≡ map string_bytes rows.old.items ++ object_rows ledger.now loan.now) }
{
    match agreed_terms(ledger, loan) {
        Some(terms) => push_lines(alloc, ledger, &terms, rows),
        None => Ok(()),
    }
}

/// Adds the rows of the objects of the loan with these terms.
fn push_lines(
    alloc: Global,
    ledger: &Ledger,
    terms: &Terms<'_>,
    rows: &mut Vec<String>,
) -> Result<(), NoMemory>
    ensures { OnOk result (map string_bytes rows.new.items ≡ map string_bytes rows.old.items
        ++ map (object_row ledger.now (agreement_with terms.now)) terms.now.objects.now) }
{
    for i in 0..terms.objects.len() {
        rows.push(object_row(alloc, ledger, terms, &terms.objects[i])?)?;
    }
    Ok(())
}

/// The row of an object.
fn object_row(
    alloc: Global,
    ledger: &Ledger,
    terms: &Terms<'_>,
    object: &ThingCode,
) -> Result<String, NoMemory>
    ensures { IfOk result (λ sql. string_bytes sql
        ≡ object_row ledger.now (agreement_with terms.now) object.now) }
{
    let stage = stage_if(stage_of(ledger, terms, object));
    let values = [
        Value::Loan(terms.loan),
        Value::Thing(*object),
        stage,
        Value::Nothing,
        Value::Nothing,
    ];
    row(alloc, &values)
}

/// Adds the statements that set the loan of each thing that is out under one. Fails with
/// `NoMemory`.
pub(crate) fn add_lent(alloc: Global, ledger: &Ledger, script: &mut String) -> Result<(), NoMemory>
    ensures { OnOk result
        (string_bytes script.new ≡ string_bytes script.old ++ all_lent ledger.now) }
{
    for i in 0..ledger.loan_count() {
        let texts = lent_texts(alloc, ledger, &ledger.loan_at(i))?;
        script.push_str(texts.as_str())?;
    }
    Ok(())
}

/// The statements for the objects of a loan.
fn lent_texts(alloc: Global, ledger: &Ledger, loan: &LoanCode) -> Result<String, NoMemory>
    ensures { IfOk result (λ sql. string_bytes sql ≡ lent_texts ledger.now loan.now) }
{
    match agreed_terms(ledger, loan) {
        Some(terms) => terms_texts(alloc, ledger, &terms),
        None => Ok(String::new(alloc)),
    }
}

/// The statements for the objects of the loan with these terms.
fn terms_texts(alloc: Global, ledger: &Ledger, terms: &Terms<'_>) -> Result<String, NoMemory>
    ensures { IfOk result (λ sql. string_bytes sql
        ≡ flat_map (lent_if ledger.now (agreement_with terms.now)) terms.now.objects.now) }
{
    let mut texts = String::new(alloc);
    for i in 0..terms.objects.len() {
        let lent = lent_if(alloc, ledger, terms, &terms.objects[i])?;
        texts.push_str(lent.as_str())?;
    }
    Ok(texts)
}

/// The statement that sets the thing's loan, if the object is out under the loan.
fn lent_if(
    alloc: Global,
    ledger: &Ledger,
    terms: &Terms<'_>,
    object: &ThingCode,
) -> Result<String, NoMemory>
    ensures { IfOk result (λ sql. string_bytes sql
        ≡ lent_if ledger.now (agreement_with terms.now) object.now) }
{
    if is_out(ledger, terms, object) {
        lent_text(alloc, &terms.loan, object)
    } else {
        Ok(String::new(alloc))
    }
}

/// The statement that sets the loan of a thing.
fn lent_text(alloc: Global, loan: &LoanCode, object: &ThingCode) -> Result<String, NoMemory>
    ensures { IfOk result (λ sql. string_bytes sql ≡ lent_text loan.now object.now) }
{
    let loan = literal(alloc, &Value::Loan(*loan))?;
    let object = literal(alloc, &Value::Thing(*object))?;
    Ok(format!(in alloc; "UPDATE thing SET loan={loan} WHERE code={object};\n")?)
}
