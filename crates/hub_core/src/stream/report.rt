//! Shows a watch the outcomes of a line.
ghost use Rattle.std.specs.Prelude.{List, [], ◌∷◌, ◌++◌, reverse};
ghost use Rattle.hub_core.specs.Outcomes.{posted_outcomes, answer_outcomes, reply_outcomes};
ghost use Rattle.hub_core.specs.declared.outcome.Outcome.{Outcome};

use crate::line::reply::Reply;
use crate::{Answer, Outcome, Watch};
use posting_core::PostedEntry;

/// Shows a watch the outcomes of a line with this reply. The posted entries are listed oldest
/// first.
pub(crate) fn report<V: Watch>(watch: &mut V, reply: Reply, posted: &[PostedEntry])
    ensures { (before : List Outcome) → V.has_seen watch.old before
        → V.has_seen watch.new (before ++ reply_outcomes (reverse posted.now) reply) }
{
    match reply {
        Reply::Empty => {}
        Reply::Bad => report_line(watch, Outcome::Bad),
        Reply::UnknownStation => report_line(watch, Outcome::UnknownStation),
        Reply::Asked => report_line(watch, Outcome::Asked),
        Reply::Answered(answer) => report_answer(watch, answer, posted),
    }
}

/// Shows it a line with one outcome besides Answered.
fn report_line<V: Watch>(watch: &mut V, outcome: Outcome)
    ensures { (before : List Outcome) → V.has_seen watch.old before
        → V.has_seen watch.new (before ++ Outcome.Answered ∷ outcome ∷ []) }
{
    watch.see(Outcome::Answered);
    watch.see(outcome);
}

/// Shows it the outcomes of a message with this answer.
fn report_answer<V: Watch>(watch: &mut V, answer: Answer, posted: &[PostedEntry])
    ensures { (before : List Outcome) → V.has_seen watch.old before
        → V.has_seen watch.new
        (before ++ Outcome.Answered ∷ answer_outcomes (reverse posted.now) answer) }
{
    match answer {
        Answer::Refused(refusal) => report_line(watch, Outcome::Refused(refusal)),
        Answer::Held => report_line(watch, Outcome::Held),
        Answer::Posted { first, .. } => {
            watch.see(Outcome::Answered);
            report_posted(watch, first, posted);
        }
    }
}

/// Shows it the entries from number `first` on. They are listed oldest first.
fn report_posted<V: Watch>(watch: &mut V, first: u64, entries: &[PostedEntry])
    ensures { (before : List Outcome) → V.has_seen watch.old before
        → V.has_seen watch.new (before ++ posted_outcomes first (reverse entries.now)) }
{
    let start = first.saturating_sub(1) as usize;
    for i in start..entries.len() {
        watch.see(Outcome::Posted(entries[i].verdict()));
    }
}
