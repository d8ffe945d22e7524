//! The kinds of messages.
ghost use Rattle.std.specs.Prelude.{◌≡◌};
ghost use Rattle.table_core.specs.Kinds.{kind_columns, kind_named};

use crate::Column;

/// The kind of a row's message.
#[derive(Clone, Copy, Debug, PartialEq, Eq)]
pub enum Kind {
    Move,
    Pack,
    Agree,
    Authorise,
    Exit,
    Return,
    Receive,
    SignOff,
    Extend,
}

impl Kind {
    /// The kind of this name. None if no kind has it.
    pub fn named(name: &str) -> Option<Kind>
        ensures { result ≡ kind_named name.now }
    {
        match name {
            "move" => Some(Kind::Move),
            "pack" => Some(Kind::Pack),
            "agree" => Some(Kind::Agree),
            "authorise" => Some(Kind::Authorise),
            "exit" => Some(Kind::Exit),
            "return" => Some(Kind::Return),
            "receive" => Some(Kind::Receive),
            "signoff" => Some(Kind::SignOff),
            "extend" => Some(Kind::Extend),
            _ => None,
        }
    }

    /// The columns of the kind, in the order in which they are checked. A row's other cells are not
    /// part of its message, and may have any text.
    pub fn columns(self) -> &'static [Column]
        ensures { result.now ≡ kind_columns self }
    {
        match self {
            Kind::Move => &[Column::Thing, Column::Place, Column::Day],
            Kind::Pack => &[Column::Thing, Column::Container, Column::Day],
            Kind::Agree => &[
                Column::Loan,
                Column::Partner,
                Column::Objects,
                Column::First,
                Column::Last,
            ],
            Kind::Authorise => &[Column::Loan, Column::By],
            Kind::Exit => &[Column::Thing, Column::Loan, Column::Day],
            Kind::Return | Kind::Receive => {
                &[Column::Thing, Column::Loan, Column::Place, Column::Day]
            }
            Kind::SignOff => &[Column::By],
            Kind::Extend => &[Column::Loan, Column::Last],
        }
    }
}
