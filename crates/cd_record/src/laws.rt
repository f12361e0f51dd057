//! What holds of all records, as the contract of a function that does nothing.

ghost use Rattle.std.specs.Prelude.{◌≡◌, ℕ, ◌^◌, ◌<◌, List};
ghost use Rattle.cd_record.specs.declared.record.Record.{Record};
ghost use Rattle.cd_record.specs.RecordText.{record_text, record_text_v1};
ghost use Rattle.cd_record.specs.Records.{IsRecord, IsTextOf};
ghost use Rattle.cd_record.specs.RecordReading.{record_in};

/// The text of a record, in each version, is read back as that record, and no two records share a text.
pub fn a_text_has_one_record()
    ensures back { (r : Record) → IsRecord r → record_in (record_text r.count r.face) ≡ Ok r }
    ensures back_v1 { (r : Record) → IsRecord r → r.count < 2 ^ 32
        → record_in (record_text_v1 r.count r.face) ≡ Ok r }
    ensures one { (a b : Record) (bytes : List ℕ) → IsRecord a → IsRecord b
        → IsTextOf a bytes → IsTextOf b bytes → a ≡ b }
{}
