//! Texts and histories determine each other.
ghost use Rattle.std.specs.Prelude.{◌≡◌, ℕ, List, Ok, Err, take};
ghost use Rattle.em_log.specs.declared.entry.Entry.{Entry};
ghost use Rattle.em_log.specs.declared.ids.EndKind.{EndKind};
ghost use Rattle.em_trace.specs.Fitting.{AreEntries};
ghost use Rattle.em_trace.specs.FirstLines.{first_lines, whole_lines, AreFirstEntries};
ghost use Rattle.em_trace.specs.Text.{text};
ghost use Rattle.em_trace.specs.Reading.{trace_of};

/// Two different pairs of a history and an end have different texts.
pub fn texts_differ()
    ensures { (h k : List Entry) (e f : EndKind) → AreEntries h → AreEntries k → text h e ≡ text k f
        → (h ≡ k) × (e ≡ f) }
{}

/// Reading undoes writing.
pub fn reading_undoes_writing()
    ensures { (h : List Entry) (e : EndKind) → AreEntries h → trace_of (text h e) ≡ Ok (h, e) }
{}

/// Where a text is written in part, as after a failed write, its whole lines are those of the first entries.
pub fn whole_lines_are_first_entries()
    ensures { (h : List Entry) (e : EndKind) (n : ℕ) → AreFirstEntries h e (whole_lines (take n (text h e))) }
{}

/// The lines up to the one that fails decide alone: bytes with the same first lines are refused with the same line and rule.
pub fn refused_by_first_lines()
    ensures { (bytes others : List ℕ) (line rule : ℕ) → trace_of bytes ≡ Err (line, rule)
        → first_lines line bytes ≡ first_lines line others → trace_of others ≡ Err (line, rule) }
{}
