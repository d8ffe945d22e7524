//! Facts that follow from the definitions. Each is stated on a function that does nothing.
ghost use Rattle.std.specs.Prelude.{◌≡◌, ℕ, List, []};
ghost use Rattle.nest_core.specs.Museum.{Museum};
ghost use Rattle.nest_core.specs.SetupRows.{Fields};
ghost use Rattle.table_core.specs.declared.options.TableOptions.{TableOptions};
ghost use Rattle.table_core.specs.Tables.{Texts};
ghost use Rattle.table_core.specs.Labels.{code_for};
ghost use Rattle.table_core.specs.Laws.{HasMessageOfEachRow, HasNumbersInOrder, HideNoCode};

/// Each row with text of a table without faults has one message.
pub fn each_row_has_a_message()
    ensures { (options : TableOptions) (rows : Texts) → HasMessageOfEachRow options rows }
{}

/// The messages of a table without faults have one number after the other, unless the table has a
/// column of numbers.
pub fn numbers_follow_each_other()
    ensures { (options : TableOptions) (rows : Texts) → HasNumbersInOrder options rows }
{}

/// Labels that a setup accepts hide no code of the setup.
pub fn labels_hide_no_code()
    ensures { (S : Museum) (rows : List Fields) → HideNoCode S rows }
{}

/// Without labels each text stands for itself.
pub fn texts_stand_for_themselves()
    ensures { (text : List ℕ) → code_for [] text ≡ text }
{}
