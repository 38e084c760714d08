//! What follows from the definitions. Each function's contract is one law; its body is empty.
ghost use Rattle.std.specs.Prelude.{List, ℕ};
ghost use Rattle.text_forms.specs.Laws.{RecordReadsBack};

/// A reader of comma-separated values reads a record's fields from its line.
pub fn record_reads_back()
    ensures { (fields : List (List ℕ)) (line tail : List ℕ) → RecordReadsBack fields line tail }
{}
