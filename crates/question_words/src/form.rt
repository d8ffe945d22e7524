//! The form of a report.
ghost use Rattle.std.specs.Prelude.{◌≡◌};
ghost use Rattle.question_words.specs.Questions.{form_of};

use command_words::Format;
use reports::Form;

/// Returns the form of a report that the words name.
pub fn form_of(format: Format) -> Form
    ensures { result ≡ form_of format }
{
    match format {
        Format::Lines => Form::Plain,
        Format::Csv => Form::Csv,
        Format::Json => Form::Json,
        Format::Table => Form::Table,
    }
}
