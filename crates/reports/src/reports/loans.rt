//! The agreed loans.
ghost use Rattle.std.specs.Prelude.{◌≡◌, ◌++◌, IfOk, OnOk, Some, filter, map, option_map, reverse};
ghost use Rattle.posting_core.specs.Book.{loans_in};
ghost use Rattle.reports.specs.declared.form.Form.{Form};
ghost use Rattle.reports.specs.LoanLists.{authoriser, count_lines, days_left, ends_by, is_at};
ghost use Rattle.reports.specs.LoanLists.{is_listed, is_open, left_words, listed_row, listed_rows};
ghost use Rattle.reports.specs.LoanLists.{loan_values};
ghost use Rattle.reports.specs.LoanLists.{loan_words, name_by, noun, out_word, signed_if};
ghost use Rattle.reports.specs.Terms.{agreement_with};
ghost use Rattle.reports.specs.Cells.{cell_of};

use crate::field::Field;
use crate::optional_fields::{day_if, name_if};
use crate::reports::loan::{stage_of, state_field};
use crate::rows::Rows;
use crate::sections::{Terms, agreed_terms};
use crate::{Form, LoanFilter};
use codes_core::{Day, LoanCode, Name, NoMemory, ThingCode};
use posting_core::{Ledger, LineStage, LoanState, Message, PostedEntry, Verdict};
use std::alloc::Global;

/// The agreed loans that a list has, in the order of their agreements.
#[derive(Drop)]
pub(crate) struct Loans<'a> {
    ledger: &'a Ledger,
    asked: &'a LoanFilter,
    loans: Vec<LoanCode>,
}

impl<'a> Rows for Loans<'a> {
    ghost use Rattle.std.specs.Prelude.{map};
    ghost use Rattle.reports.specs.LoanLists.{listed_row};

    ghost rows = { λ s form. map (listed_row s.ledger.now form s.asked.now.on) s.loans.items };

    fn len(&self, _form: Form) -> usize {
        self.loans.len()
    }

    fn row(&self, alloc: Global, form: Form, i: usize) -> Result<Vec<Field<'_>>, NoMemory> {
        listed_row(alloc, self.ledger, form, self.asked.on, self.loans[i])
    }
}

impl<'a> Loans<'a> {
    /// Finds the loans that the list has.
    pub(crate) fn find(
        alloc: Global,
        ledger: &'a Ledger,
        asked: &'a LoanFilter,
    ) -> Result<Loans<'a>, NoMemory>
        ensures { IfOk result (λ found. (form : Form)
            → map (listed_row found.ledger.now form found.asked.now.on) found.loans.items
            ≡ listed_rows ledger.entry.now form asked.entry.now) }
    {
        let loans = listed(alloc, ledger, asked)?;
        Ok(Loans {
            ledger,
            asked,
            loans,
        })
    }
}

/// The agreed loans that the list has.
fn listed(alloc: Global, ledger: &Ledger, asked: &LoanFilter) -> Result<Vec<LoanCode>, NoMemory>
    ensures { IfOk result
        (λ loans. loans.items ≡ filter (is_listed ledger.now asked.now) (loans_in ledger.now)) }
{
    let mut loans = Vec::new(alloc);
    for i in 0..ledger.loan_count() {
        let loan = ledger.loan_at(i);
        if is_listed(ledger, asked, &loan) {
            loans.push(loan)?;
        }
    }
    Ok(loans)
}

fn is_listed(ledger: &Ledger, asked: &LoanFilter, loan: &LoanCode) -> bool
    ensures { result ≡ is_listed ledger.now asked.now loan.now }
{
    if asked.open && !is_open(ledger, loan) {
        return false;
    }
    match asked.by {
        Some(day) => ends_by(ledger, day, loan),
        None => true,
    }
}

/// Whether the loan isn't closed.
fn is_open(ledger: &Ledger, loan: &LoanCode) -> bool
    ensures { result ≡ is_open ledger.now loan.now }
{
    !matches!(ledger.loan_state(loan), Some(LoanState::Closed))
}

/// Whether the loan ends on the day or before it.
pub(crate) fn ends_by(ledger: &Ledger, day: Day, loan: &LoanCode) -> bool
    ensures { result ≡ ends_by ledger.now day loan.now }
{
    match ledger.last_day(loan) {
        Some(last) => last <= day,
        None => false,
    }
}

fn listed_row<'a>(
    alloc: Global,
    ledger: &'a Ledger,
    form: Form,
    on: Option<Day>,
    loan: LoanCode,
) -> Result<Vec<Field<'a>>, NoMemory>
    ensures { IfOk result
        (λ row. map cell_of row.items ≡ listed_row ledger.entry.now form on loan) }
{
    match (agreed_terms(ledger, &loan), form) {
        (None, _) => Ok(Vec::new(alloc)),
        (Some(terms), Form::Plain) => loan_words(alloc, ledger, on, &terms),
        (Some(terms), Form::Csv | Form::Json | Form::Table) => loan_values(
            alloc, ledger, on, &terms,
        ),
    }
}

/// The words of a loan's plain line.
fn loan_words<'a>(
    alloc: Global,
    ledger: &Ledger,
    on: Option<Day>,
    terms: &Terms<'_>,
) -> Result<Vec<Field<'a>>, NoMemory>
    ensures { IfOk result
        (λ row. map cell_of row.items ≡ loan_words ledger.now on (agreement_with terms.now)) }
{
    let days = days_left(ledger, on, &terms.loan);
    let count = terms.objects.len() as u64;
    let mut words = vec![in alloc;
        Field::Loan(terms.loan),
        state_field(ledger.loan_state(&terms.loan)),
        Field::Place(terms.partner),
        Field::Day(terms.first),
        day_if(ledger.last_day(&terms.loan)),
        Field::Number(count),
        noun(count, "object,", "objects,"),
        Field::Number(count_lines(ledger, terms, Phase::Out)),
        out_word(days),
    ]?;
    if let Some(days) = days {
        add_left(&mut words, days)?;
    }
    Ok(words)
}

/// Adds the words for the days that are left.
fn add_left(words: &mut Vec<Field<'_>>, days: i32) -> Result<(), NoMemory>
    ensures { OnOk result
        (map cell_of words.new.items ≡ map cell_of words.old.items ++ left_words (Some days)) }
{
    let count = u64::from(days.unsigned_abs());
    words.push(Field::Number(count))?;
    words.push(noun(count, "day", "days"))?;
    words.push(Field::Word(if days < 0 { "over" } else { "left" }))?;
    Ok(())
}

/// The values of a loan's row.
fn loan_values<'a>(
    alloc: Global,
    ledger: &'a Ledger,
    on: Option<Day>,
    terms: &Terms<'_>,
) -> Result<Vec<Field<'a>>, NoMemory>
    ensures { IfOk result
        (λ row. map cell_of row.items
        ≡ loan_values ledger.entry.now on (agreement_with terms.now)) }
{
    let days = signed_if(alloc, days_left(ledger, on, &terms.loan))?;
    let name = name_if(authoriser(ledger.posted(), &terms.loan));
    Ok(vec![in alloc;
        Field::Loan(terms.loan),
        state_field(ledger.loan_state(&terms.loan)),
        Field::Place(terms.partner),
        Field::Day(terms.first),
        day_if(ledger.last_day(&terms.loan)),
        Field::Number(terms.objects.len() as u64),
        Field::Number(count_lines(ledger, terms, Phase::Awaiting)),
        Field::Number(count_lines(ledger, terms, Phase::Out)),
        Field::Number(count_lines(ledger, terms, Phase::Back)),
        day_if(on),
        days,
        name,
    ]?)
}

/// How far an object of a loan is.
#[derive(Clone, Copy)]
pub(crate) enum Phase {
    /// It has not left yet, or not arrived.
    Awaiting,
    /// It is still owed: it has left or arrived, and has not gone back.
    Out,
    /// It is back with its owner.
    Back,
}

/// The number of the loan's objects that are so far.
fn count_lines(ledger: &Ledger, terms: &Terms<'_>, phase: Phase) -> u64
    ensures { result
        ≡ count_lines ledger.now (agreement_with terms.now) phase terms.now.objects.now }
{
    let mut count = 0;
    for i in 0..terms.objects.len() {
        if is_at(ledger, terms, phase, &terms.objects[i]) {
            count += 1;
        }
    }
    count
}

/// Whether the object under the loan is so far.
pub(crate) fn is_at(ledger: &Ledger, terms: &Terms<'_>, phase: Phase, object: &ThingCode) -> bool
    ensures { result ≡ is_at ledger.now (agreement_with terms.now) phase object.now }
{
    let Some(stage) = stage_of(ledger, &terms.loan, object) else {
        return false;
    };
    match phase {
        Phase::Awaiting => matches!(stage, LineStage::Awaiting),
        Phase::Out => matches!(stage, LineStage::Away | LineStage::Here),
        Phase::Back => matches!(stage, LineStage::Back | LineStage::GivenBack),
    }
}

/// The days from the day to the last day of a loan that isn't closed.
fn days_left(ledger: &Ledger, on: Option<Day>, loan: &LoanCode) -> Option<i32>
    ensures { result ≡ days_left ledger.now on loan.now }
{
    match (on, ledger.last_day(loan)) {
        (Some(day), Some(last)) if is_open(ledger, loan) => Some(last.days_after(day)),
        _ => None,
    }
}

/// The word after the number of objects that are still owed.
fn out_word<'a>(days: Option<i32>) -> Field<'a>
    ensures { cell_of result ≡ out_word days }
{
    match days {
        Some(_) => Field::Word("out,"),
        None => Field::Word("out"),
    }
}

fn noun<'a>(count: u64, one: &'static str, many: &'static str) -> Field<'a>
    ensures { cell_of result ≡ noun count one.now many.now }
{
    Field::Word(if count == 1 { one } else { many })
}

fn signed_if<'a>(alloc: Global, number: Option<i32>) -> Result<Field<'a>, NoMemory>
    ensures { IfOk result (λ field. cell_of field ≡ signed_if number) }
{
    match number {
        Some(number) => Ok(Field::Json(number.to_string(alloc)?)),
        None => Ok(Field::Nothing),
    }
}

/// The name of who authorised the loan, if it is authorised.
fn authoriser<'a>(posted: &'a [PostedEntry], loan: &LoanCode) -> Option<&'a Name>
    ensures { option_map (λ name. name.now) result
        ≡ authoriser (reverse posted.entry.now) loan.now }
{
    let mut found = None;
    for i in 0..posted.len() {
        if let Some(name) = name_by(&posted[i], loan) {
            found = Some(name);
        }
    }
    found
}

/// The name in the entry, if it authorises the loan.
fn name_by<'a>(entry: &'a PostedEntry, loan: &LoanCode) -> Option<&'a Name>
    ensures { option_map (λ name. name.now) result ≡ name_by entry.entry.now loan.now }
{
    match entry.message().as_message() {
        Some(
            Message::Authorise {
                name,
                loan: authorised,
            },
        ) if *authorised == *loan && matches!(entry.verdict(), Verdict::Applied) => { Some(name) }
        _ => None,
    }
}
