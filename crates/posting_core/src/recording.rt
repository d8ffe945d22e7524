//! Records the changes that an entry makes in the loans.
ghost use Rattle.std.specs.Prelude.{◌≡◌, ◌<◌, ◌++◌, true, is_some, if◌then◌else◌, IfSome, length};
ghost use Rattle.std.specs.Prelude.{map, OnOk, OnErr, vec_capacity};
ghost use Rattle.std.specs.Option.{option_to_list};
ghost use Rattle.posting_core.specs.declared.verdict.Verdict.TheVariants.{Applied};
ghost use Rattle.posting_core.specs.VerdictNames.{is_applied};
ghost use Rattle.posting_core.specs.Agreements.{agreement_by, agreement_in};
ghost use Rattle.posting_core.specs.LoanRows.{rows_with, row_by, MayAgree};

use crate::kept_loan::KeptLoan;
use crate::kept_loans::KeptLoans;
use crate::{Entry, EntryNo, Message, NewLine, Verdict};
use codes_core::NoMemory;
use nest_core::Setup;
use std::alloc::Global;

/// Records a message and its loan lines; under any other verdict than `Applied`, nothing changes.
/// `loan` is the number of the loan that the message continues, if it continues one. Fails with
/// `NoMemory`, but only for an agreement, and then the loans are unchanged.
pub(crate) fn record(
    alloc: Global,
    loans: &mut KeptLoans,
    setup: &Setup,
    verdict: Verdict,
    message: &Message,
    loan: Option<usize>,
    lines: &[NewLine],
) -> Result<(), NoMemory>
    requires agree { IfSome (agreement_by verdict message.now) (MayAgree loans.old lines.now) }
    requires number { loan ≡ row_by loans.old verdict message.now }
    ensures ok { OnOk result
        (loans.new ≡ (if is_applied verdict
        then rows_with setup.now loans.old message.now lines.now else loans.old)) }
    ensures err { OnErr result
        ((loans.new ≡ loans.old) × (is_some (agreement_in message.now) ≡ true)) }
{
    match verdict {
        Verdict::Applied => write(alloc, loans, setup, message, loan, lines),
        _ => Ok(()),
    }
}

/// Adds the number of the entry to those that make an agreement, if this one does. There must be
/// room for it.
pub(crate) fn note_agreement(agreed: &mut Vec<EntryNo>, entry: &Entry, number: EntryNo)
    requires { length agreed.old.items < vec_capacity agreed.old }
    ensures { agreed.new.items ≡ agreed.old.items
        ++ map (λ t. number)
        (option_to_list (agreement_by entry.now.verdict entry.now.message)) }
{
    if matches!(entry.verdict, Verdict::Applied) && matches!(entry.message, Message::Agree { .. }) {
        agreed.push_reserved(number);
    }
}

/// Records an applied message and its loan lines. Fails as `record` does.
fn write(
    alloc: Global,
    loans: &mut KeptLoans,
    setup: &Setup,
    message: &Message,
    loan: Option<usize>,
    lines: &[NewLine],
) -> Result<(), NoMemory>
    requires agree { IfSome (agreement_in message.now) (MayAgree loans.old lines.now) }
    requires number { loan ≡ row_by loans.old Applied message.now }
    ensures ok { OnOk result
        (loans.new ≡ rows_with setup.now loans.old message.now lines.now) }
    ensures err { OnErr result
        ((loans.new ≡ loans.old) × (is_some (agreement_in message.now) ≡ true)) }
{
    match message {
        Message::Agree {
            last,
            loan,
            partner,
            ..
        } => {
            let row = KeptLoan::new(alloc, setup, *loan, partner, lines, *last)?;
            loans.push(row)?;
        }
        Message::Authorise { .. } => loans.authorise(loan),
        Message::Exit { .. } => loans.cross(loan, lines),
        Message::Return { .. } => loans.cross(loan, lines),
        Message::Receive { .. } => loans.cross(loan, lines),
        Message::Extend { last, .. } => loans.extend(loan, *last),
        Message::Move { .. } | Message::Pack { .. } | Message::SignOff { .. } => {}
    }
    Ok(())
}
