//! The result of judging a message.
ghost use Rattle.std.specs.Prelude.{◌≡◌, Some, None, if◌then◌else◌};
ghost use Rattle.posting_core.specs.declared.verdict.Verdict.TheVariants.{Applied};
ghost use Rattle.posting_core.specs.VerdictNames.{is_applied};

use crate::Verdict;
use nest_core::{Put, Target, ThingNo, ThingNos};

/// A message's verdict. If it is applied, also where it puts its thing and the number of the loan
/// that it continues, if its kind does that. `carried` has the things that the thing carries, if
/// judging has gathered them.
#[derive(Drop)]
pub(crate) struct Judged {
    pub(crate) verdict: Verdict,
    pub(crate) put: Option<Put>,
    pub(crate) carried: Option<ThingNos>,
    pub(crate) loan: Option<usize>,
}

/// The result for a message that puts nothing and continues no loan.
pub(crate) fn unput(verdict: Verdict) -> Judged
    ensures { result ≡ record { verdict = verdict; put = None; carried = None; loan = None } }
{
    Judged {
        verdict,
        put: None,
        carried: None,
        loan: None,
    }
}

/// The result for an applied message that continues this loan and puts nothing.
pub(crate) fn going_on(loan: usize) -> Judged
    ensures { result
        ≡ record { verdict = Applied; put = None; carried = None; loan = Some loan } }
{
    Judged {
        verdict: Verdict::Applied,
        put: None,
        carried: None,
        loan: Some(loan),
    }
}

/// The result for a message that, if it is applied, puts its thing there and continues this loan,
/// if there is one. `carried` has the things that the thing carries, if judging has gathered them.
pub(crate) fn putting(
    verdict: Verdict,
    thing: ThingNo,
    to: Target,
    carried: Option<ThingNos>,
    loan: Option<usize>,
) -> Judged
    ensures verdict { result.verdict ≡ verdict }
    ensures put { result.put
        ≡ (if is_applied verdict then Some (record { thing = thing; to = to }) else None) }
    ensures carried { result.carried ≡ (if is_applied verdict then carried else None) }
    ensures loan { result.loan ≡ (if is_applied verdict then loan else None) }
{
    match verdict {
        Verdict::Applied => Judged {
            verdict,
            put: Some(Put { thing, to }),
            carried,
            loan,
        },
        _ => unput(verdict),
    }
}
