//! Facts that are true of the messages of every desk. Each law is the contract of a function that
//! does nothing.
ghost use Rattle.std.specs.Prelude.{ℕ, ◌≡◌, ◌<◌, ◌++◌, [], false, List, length, take};
ghost use Rattle.hub_core.specs.declared.hub.answer.Answer.TheVariants.{Posted};
ghost use Rattle.hub_core.specs.declared.hub.answer.Arrival.{Arrival};
ghost use Rattle.hub_core.specs.declared.line.bytes.TheConstants.{MOST_KEPT};
ghost use Rattle.hub_core.specs.Lines.{without_return};
ghost use Rattle.hub_core.specs.Points.{point, reply};
ghost use Rattle.nest_core.specs.Museum.{Museum};
ghost use Rattle.posting_core.specs.declared.entry.Entry.{Entry};
ghost use Rattle.posting_core.specs.declared.message.Message.{Message};
ghost use Rattle.posting_core.specs.Messages.{is_sign_off};
ghost use Rattle.station_core.specs.declared.TheConstants.{LAST};
ghost use Rattle.station_core.specs.Runs.{is_signed, ready};
ghost use Rattle.desk_core.specs.Logs.{log_text};
ghost use Rattle.desk_core.specs.Sent.{own_arrival};
ghost use Rattle.desk_core.specs.Sessions.{taken};

/// A message of a desk is posted at once. It is never held, and never refused as Double, unless its
/// station has signed off or has used its last number.
pub fn own_messages_are_posted()
    ensures { (S : Museum) (depth : ℕ) (O : List Entry) (A : List Arrival) (s : ℕ) (m : Message)
        → s < length S.stations
        → is_signed is_sign_off (point S depth O A).taken s ≡ false
        → ready is_sign_off (point S depth O A).taken s < LAST
        → (first : ℕ) × (last : ℕ)
        × (reply S depth O A (own_arrival S depth O A s m) ≡ Posted first last) }
{}

/// Without labels, a line is taken as it is typed.
pub fn lines_without_labels_are_taken_as_typed()
    ensures { (line : List ℕ) → taken [] line ≡ without_return (take MOST_KEPT line) }
{}

/// The log of several arrivals is that of the first ones and then that of the others.
pub fn logs_are_appended()
    ensures { (S : Museum) (s : ℕ) (A B : List Arrival)
        → log_text S s (A ++ B) ≡ log_text S s A ++ log_text S s B }
{}
