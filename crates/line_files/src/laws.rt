//! Laws of lines and of their faults. The functions do nothing: their contracts are the laws.
ghost use Rattle.std.specs.Prelude.{◌≡◌, ℕ, List, Ok, Some};
ghost use Rattle.nest_core.specs.Museum.{Museum, find_station};
ghost use Rattle.posting_core.specs.declared.message.Message.{Message};
ghost use Rattle.register_store.specs.SentLines.{ReadsAs};
ghost use Rattle.hub_core.specs.declared.line.request.Request.TheVariants.{Scan};
ghost use Rattle.hub_core.specs.Requests.{line_in};
ghost use Rattle.line_files.specs.Checked.{read_fault};

/// A line that reads as a station's message, which `sent_line` promises of every line, is read by a
/// replay as this message of this station, if the setup has the station.
pub fn sent_lines_are_read()
    ensures { (S : Museum) (s n : ℕ) (station : List ℕ) (m : Message) (bytes : List ℕ)
        → find_station S station ≡ Some s → ReadsAs station n m bytes
        → line_in S bytes ≡ Ok (record { station = Some s; request = Scan n m }) }
{}

/// Whether a line has a fault, and which, is the same with every setup.
pub fn faults_need_no_setup()
    ensures { (S T : Museum) (bytes : List ℕ)
        → read_fault (line_in S bytes) ≡ read_fault (line_in T bytes) }
{}
