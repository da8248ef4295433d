// The theorem on texts.
ghost use Rattle.std.specs.Prelude.{◌≡◌, ℕ, List, Result};
ghost use Rattle.cf_row.specs.Row.{RowValue};
ghost use Rattle.cf_row.specs.declared.schema.Attr.{Attr};
ghost use Rattle.cf_records.specs.declared.fault.RecordFault.{RecordFault};
ghost use Rattle.cf_records.specs.Records.{RecordsText};

/// A text is a file of one list of rows, or has one first fault: some of the two, and no other.
pub fn each_text_is_one_thing()
    ensures some { (attrs : List Attr) (text : List ℕ) → (answer : Result (List RowValue) RecordFault) × RecordsText attrs text answer }
    ensures one { (attrs : List Attr) (text : List ℕ) (a b : Result (List RowValue) RecordFault) → RecordsText attrs text a → RecordsText attrs text b → a ≡ b }
{}
