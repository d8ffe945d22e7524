//! The comparison of a count list with the record.
ghost use Rattle.std.specs.Prelude.{◌≡◌, ◌<◌, ℕ, All, IfOk, Some, length, map, slice_get};
ghost use Rattle.count_core.specs.Counts.{IsAnswerIn, IsMissingIn, answers};
ghost use Rattle.count_core.specs.Sealed.{missing_unless_sealed};
ghost use Rattle.count_core.specs.declared.answer.CountAnswer.TheVariants as answer;
ghost use Rattle.reports.specs.declared.form.Form.{Form};
ghost use Rattle.reports.specs.CountRows.{answer_row, answer_word, count_rows, found_rows};
ghost use Rattle.reports.specs.CountRows.{missing_row, on_record};
ghost use Rattle.reports.specs.Cells.{cell_of};

use crate::Form;
use crate::field::Field;
use crate::optional_fields::{place_code_if, place_if, thing_if};
use crate::rows::Rows;
use codes_core::{NoMemory, PlaceCode};
use count_core::{CountAnswer, CountReport, CountRow, MissingObject, check, check_sealed};
use nest_core::Setup;
use posting_core::Ledger;
use std::alloc::Global;
use std::thread::Threads;

/// The rows of a count list with their answers, and the objects that are missing from it.
#[derive(Drop)]
pub(crate) struct Counted<'a> {
    ledger: &'a Ledger,
    list: &'a [CountRow],
    answers: Vec<CountAnswer>,
    missing: Vec<MissingObject>,
    ghost many: { length answers.items ≡ length list.now },
    ghost known: { (i p : ℕ) → slice_get answers.items i ≡ Some (answer.Elsewhere p)
        → p < length ledger.now.museum.places },
    ghost within: { All (IsMissingIn ledger.now.museum) missing.items },
}

impl<'a> Rows for Counted<'a> {
    ghost use Rattle.reports.specs.CountRows.{found_rows};

    ghost rows = { λ s form. found_rows s.ledger.now form s.list.now s.answers.items
        s.missing.items };

    fn len(&self, _form: Form) -> usize {
        self.list.len() + self.missing.len()
    }

    fn row(&self, alloc: Global, form: Form, i: usize) -> Result<Vec<Field<'_>>, NoMemory> {
        if i < self.list.len() {
            let number = i as u64 + 1;
            answer_row(
                alloc,
                self.ledger,
                form,
                number,
                &self.list[i],
                self.answers[i],
            )
        } else {
            let missed = self.missing[i - self.list.len()];
            missing_row(alloc, self.ledger, form, missed)
        }
    }
}

impl<'a> Counted<'a> {
    /// Checks the list. If `sealed`, a container that was seen vouches for the objects in it.
    pub(crate) fn find<T: Threads + Sync>(
        threads: &T,
        alloc: Global,
        ledger: &'a Ledger,
        list: &'a [CountRow],
        sealed: bool,
    ) -> Result<Counted<'a>, NoMemory>
        ensures { IfOk result (λ found. (form : Form)
            → found_rows found.ledger.now form found.list.now found.answers.items
            found.missing.items
            ≡ count_rows ledger.entry.now form sealed list.entry.now) }
    {
        let CountReport { answers, missing } = checked(threads, alloc, ledger, list, sealed)?;
        Ok(Counted {
            ledger,
            list,
            answers,
            missing,
        })
    }
}

fn checked<T: Threads + Sync>(
    threads: &T,
    alloc: Global,
    ledger: &Ledger,
    list: &[CountRow],
    sealed: bool,
) -> Result<CountReport, NoMemory>
    ensures answers { IfOk result (λ report. report.answers.items ≡ answers ledger.now list.now) }
    ensures missing { IfOk result
        (λ report. report.missing.items ≡ missing_unless_sealed ledger.now sealed list.now) }
    ensures known { IfOk result
        (λ report. All (IsAnswerIn ledger.now.museum) report.answers.items) }
    ensures within { IfOk result
        (λ report. All (IsMissingIn ledger.now.museum) report.missing.items) }
{
    if sealed {
        return check_sealed(threads, alloc, ledger, list);
    }
    check(threads, alloc, ledger, list)
}

/// The row of an answer.
fn answer_row<'a>(
    alloc: Global,
    ledger: &Ledger,
    form: Form,
    number: u64,
    row: &CountRow,
    answer: CountAnswer,
) -> Result<Vec<Field<'a>>, NoMemory>
    requires { (p : ℕ) → answer ≡ CountAnswer.Elsewhere p
        → p < length ledger.now.museum.places }
    ensures { IfOk result (λ cells. map cell_of cells.items
        ≡ answer_row ledger.now.museum form number row.now answer) }
{
    let word = Field::Word(answer_word(answer));
    let at = place_if(on_record(ledger.setup(), answer));
    Ok(match form {
        Form::Plain => vec![in alloc; Field::Word("row"), Field::Number(number), word, at]?,
        Form::Csv | Form::Json | Form::Table => vec![in alloc;
            Field::Number(number),
            Field::Place(row.place),
            thing_if(row.object),
            word,
            at,
        ]?,
    })
}

/// The place on record of a thing that is elsewhere.
fn on_record(setup: &Setup, answer: CountAnswer) -> Option<PlaceCode>
    requires { (p : ℕ) → answer ≡ CountAnswer.Elsewhere p → p < length setup.now.places }
    ensures { result ≡ on_record setup.now answer }
{
    match answer {
        CountAnswer::Elsewhere(place) => Some(setup.place_code(place)),
        _ => None,
    }
}

/// The word for the answer to a row.
fn answer_word<'a>(answer: CountAnswer) -> &'a str
    ensures { result.now ≡ answer_word answer }
{
    match answer {
        CountAnswer::UnknownPlace => "UnknownPlace",
        CountAnswer::Counted => "Counted",
        CountAnswer::UnknownObject => "UnknownObject",
        CountAnswer::Again => "Again",
        CountAnswer::Unplaced => "Unplaced",
        CountAnswer::Found => "Found",
        CountAnswer::Elsewhere(_) => "Elsewhere",
    }
}

/// The row of an object that is missing from the list. In the forms with columns it has the place
/// on record, which may be a place in the one that the list names.
fn missing_row<'a>(
    alloc: Global,
    ledger: &Ledger,
    form: Form,
    missed: MissingObject,
) -> Result<Vec<Field<'a>>, NoMemory>
    requires { IsMissingIn ledger.now.museum missed }
    ensures { IfOk result (λ row. map cell_of row.items ≡ missing_row ledger.now form missed) }
{
    let setup = ledger.setup();
    let place = Field::Place(setup.place_code(missed.place));
    let object = Field::Thing(setup.thing_code(missed.object));
    Ok(match form {
        Form::Plain => vec![in alloc; Field::Word("missing"), place, object]?,
        Form::Csv | Form::Json | Form::Table => vec![in alloc;
            Field::Nothing,
            place,
            object,
            Field::Word("Missing"),
            place_if(place_code_if(setup, ledger.place_of(missed.object))),
        ]?,
    })
}
