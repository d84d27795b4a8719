// What the text of a record tells, by the definitions alone. The function does nothing: it states laws by its contract.
ghost use Rattle.std.specs.Prelude.{◌≡◌, ℕ, List, Ok, Err};
ghost use Rattle.lc_num.specs.Faults.{Fault};
ghost use Rattle.lc_rated.specs.declared.answer.Answer.{Answer};
ghost use Rattle.lc_record.specs.declared.head.Header.{Header};
ghost use Rattle.lc_record.specs.declared.reader.Record.{Record};
ghost use Rattle.lc_record.specs.Reading.{IsTextOf, IsFirstFault};
ghost use Rattle.lc_record.specs.Readings.{record_in};

/// A text tells a record where it is the text of that record, and a fault where that is its first fault. In no other
/// case does it tell either.
pub fn readings()
    ensures text_told { (bytes : List ℕ) (r : Record) → record_in bytes ≡ Ok r → IsTextOf r.header r.lines bytes }
    ensures fault_told { (bytes : List ℕ) (f : Fault) → record_in bytes ≡ Err f → IsFirstFault bytes f }
    ensures text_read { (h : Header) (lines : List Answer) (bytes : List ℕ) → IsTextOf h lines bytes
        → record_in bytes ≡ Ok (record { header = h; lines = lines }) }
    ensures fault_read { (bytes : List ℕ) (f : Fault) → IsFirstFault bytes f → record_in bytes ≡ Err f }
{}
