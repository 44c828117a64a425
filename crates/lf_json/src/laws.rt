//! Laws over the definitions alone, each the contract of a function that does nothing.

ghost use Rattle.std.specs.Prelude.{◌≡◌, ℕ, All, List, Result};
ghost use Rattle.lf_core.specs.declared.values.Value.{Value};
ghost use Rattle.lf_format.specs.declared.format.Piece.{Piece};
ghost use Rattle.lf_format.specs.Lines.{IsRecordOf};
ghost use Rattle.lf_json.specs.declared.bad_record.BadRecord.{BadRecord};
ghost use Rattle.lf_json.specs.Reading.{ReadsJson};
ghost use Rattle.lf_json.specs.Text.{IsStored, json_text};

/// Each line is read as a record or as bad for one cause, and as nothing else.
pub fn lines_have_one_reading()
    ensures some { (pieces : List Piece) (line : List ℕ)
        → (answer : Result (List Value) BadRecord) × ReadsJson pieces line answer }
    ensures alone { (pieces : List Piece) (line : List ℕ) (one other : Result (List Value) BadRecord)
        → ReadsJson pieces line one → ReadsJson pieces line other → one ≡ other }
{}

/// The JSON text of a record is read as the record.
pub fn reading_gives_back()
    ensures { (pieces : List Piece) (rec : List Value) → All IsStored rec
        → IsRecordOf pieces rec → ReadsJson pieces (json_text rec) (Ok rec) }
{}
