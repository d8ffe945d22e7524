//! A loan: its terms, its state, and the stages of its objects.
ghost use Rattle.std.specs.Prelude.{◌≡◌, IfOk, map, option_map};
ghost use Rattle.std.specs.Option.{option_and_then};
ghost use Rattle.nest_core.specs.Museum.{find_thing};
ghost use Rattle.posting_core.specs.Book.{line_in};
ghost use Rattle.reports.specs.LoanLists.{partner_of};
ghost use Rattle.reports.specs.Loans.{object_row, stage_word, state_word, terms_words};
ghost use Rattle.reports.specs.Terms.{agreement_with};
ghost use Rattle.reports.specs.Cells.{text_if, cell_of};

use crate::Form;
use crate::field::Field;
use crate::optional_fields::day_if;
use crate::rows::Rows;
use crate::sections::{Terms, agreed_terms};
use codes_core::{LoanCode, NoMemory, PlaceCode, ThingCode};
use posting_core::{Ledger, LineStage, LoanState};
use std::alloc::Global;

/// A loan that is agreed.
#[derive(Drop)]
pub(crate) struct Loan<'a> {
    pub ledger: &'a Ledger,
    pub terms: Terms<'a>,
}

impl<'a> Rows for Loan<'a> {
    ghost use Rattle.reports.specs.Loans.{agreed_rows};
    ghost use Rattle.reports.specs.Terms.{agreement_with};

    ghost rows = { λ s form. agreed_rows s.ledger.now form (agreement_with s.terms) };

    fn len(&self, form: Form) -> usize {
        match form {
            Form::Plain => self.terms.objects.len() + 1,
            Form::Csv | Form::Json | Form::Table => self.terms.objects.len(),
        }
    }

    fn row(&self, alloc: Global, form: Form, i: usize) -> Result<Vec<Field<'_>>, NoMemory> {
        match form {
            Form::Plain if i == 0 => terms_row(alloc, self.ledger, &self.terms),
            Form::Plain => {
                let object = self.terms.objects[i - 1];
                object_row(alloc, self.ledger, form, &self.terms, object)
            }
            Form::Csv | Form::Json | Form::Table => {
                let object = self.terms.objects[i];
                object_row(alloc, self.ledger, form, &self.terms, object)
            }
        }
    }
}

/// Returns the partner of a loan, if it is agreed.
pub fn partner_of(ledger: &Ledger, loan: &LoanCode) -> Option<PlaceCode>
    ensures { result ≡ partner_of ledger.now loan.now }
{
    match agreed_terms(ledger, loan) {
        Some(terms) => Some(terms.partner),
        None => None,
    }
}

fn terms_row<'a>(
    alloc: Global,
    ledger: &Ledger,
    terms: &Terms<'_>,
) -> Result<Vec<Field<'a>>, NoMemory>
    ensures { IfOk result (λ row. map cell_of row.items
        ≡ terms_words ledger.now (agreement_with terms.now)) }
{
    let state = state_field(ledger.loan_state(&terms.loan));
    let last = day_if(ledger.last_day(&terms.loan));
    Ok(vec![in alloc;
        Field::Loan(terms.loan),
        state,
        Field::Word("with"),
        Field::Place(terms.partner),
        Field::Word("from"),
        Field::Day(terms.first),
        Field::Word("to"),
        last,
    ]?)
}

fn object_row<'a>(
    alloc: Global,
    ledger: &Ledger,
    form: Form,
    terms: &Terms<'_>,
    object: ThingCode,
) -> Result<Vec<Field<'a>>, NoMemory>
    ensures { IfOk result (λ row. map cell_of row.items
        ≡ object_row ledger.now form (agreement_with terms.now) object) }
{
    let stage = stage_field(stage_of(ledger, &terms.loan, &object));
    let state = state_field(ledger.loan_state(&terms.loan));
    let last = day_if(ledger.last_day(&terms.loan));
    Ok(match form {
        Form::Plain => vec![in alloc; Field::Thing(object), stage]?,
        Form::Csv | Form::Json | Form::Table => vec![in alloc;
            Field::Loan(terms.loan),
            state,
            Field::Place(terms.partner),
            Field::Day(terms.first),
            last,
            Field::Thing(object),
            stage,
        ]?,
    })
}

/// The stage of an object under a loan that lists it.
pub(crate) fn stage_of(ledger: &Ledger, loan: &LoanCode, object: &ThingCode) -> Option<LineStage>
    ensures { result ≡ option_and_then (line_in ledger.now loan.now)
        (find_thing ledger.now.museum object.now) }
{
    match ledger.setup().thing(object) {
        Some(thing) => ledger.line(loan, thing),
        None => None,
    }
}

pub(crate) fn stage_field<'a>(stage: Option<LineStage>) -> Field<'a>
    ensures { cell_of result ≡ text_if (option_map stage_word stage) }
{
    match stage {
        None => Field::Nothing,
        Some(LineStage::Awaiting) => Field::Word("Awaiting"),
        Some(LineStage::Away) => Field::Word("Away"),
        Some(LineStage::Back) => Field::Word("Back"),
        Some(LineStage::Here) => Field::Word("Here"),
        Some(LineStage::GivenBack) => Field::Word("GivenBack"),
    }
}

pub(crate) fn state_field<'a>(state: Option<LoanState>) -> Field<'a>
    ensures { cell_of result ≡ text_if (option_map state_word state) }
{
    match state {
        None => Field::Nothing,
        Some(LoanState::Draft) => Field::Word("Draft"),
        Some(LoanState::Authorised) => Field::Word("Authorised"),
        Some(LoanState::Running) => Field::Word("Running"),
        Some(LoanState::Closed) => Field::Word("Closed"),
    }
}

/// The one row for a loan that isn't agreed.
#[derive(Drop)]
pub(crate) struct NoLoan {
    pub code: LoanCode,
}

impl Rows for NoLoan {
    ghost use Rattle.std.specs.Prelude.{◌∷◌, []};
    ghost use Rattle.reports.specs.Loans.{unknown_row};

    ghost rows = { λ s form. unknown_row form s.code ∷ [] };

    fn len(&self, _form: Form) -> usize {
        1
    }

    fn row(&self, alloc: Global, form: Form, _i: usize) -> Result<Vec<Field<'_>>, NoMemory> {
        Ok(match form {
            Form::Plain => vec![in alloc; Field::Loan(self.code), Field::Word("unknown")]?,
            Form::Csv | Form::Json | Form::Table => vec![in alloc;
                Field::Loan(self.code),
                Field::Word("unknown"),
                Field::Nothing,
                Field::Nothing,
                Field::Nothing,
                Field::Nothing,
                Field::Nothing,
            ]?,
        })
    }
}
