//! Graphs and their scripts determine each other.
ghost use Rattle.std.specs.Prelude.{◌≡◌, List, ℕ, Ok, Err, take};
ghost use Rattle.em_log.specs.declared.graph.Config.{Config};
ghost use Rattle.em_log.specs.WellFormed.{IsWellFormed};
ghost use Rattle.em_script.specs.Lines.{lines};
ghost use Rattle.em_script.specs.Reading.{script_of};
ghost use Rattle.em_script.specs.Scripts.{IsScript};
ghost use Rattle.em_script.specs.Spelling.{spelling};

/// Reading undoes printing.
pub fn reading_undoes_printing()
    ensures { (graph : Config) → IsWellFormed graph → script_of (spelling graph) ≡ Ok graph }
{}

/// The canonical spelling of a graph is one of its scripts.
pub fn spellings_are_scripts()
    ensures { (graph : Config) → IsWellFormed graph → IsScript (spelling graph) graph }
{}

/// What is read is a script of the graph that is found, and that graph is well formed; each script of such a graph is read
/// as that graph.
pub fn scripts_are_read()
    ensures found { (bytes : List ℕ) (graph : Config) → script_of bytes ≡ Ok graph → IsWellFormed graph × IsScript bytes graph }
    ensures only { (bytes : List ℕ) (graph : Config) → IsWellFormed graph → IsScript bytes graph → script_of bytes ≡ Ok graph }
{}

/// The lines up to the one that fails decide alone: bytes with the same first lines are refused with the same line and rule.
pub fn refused_by_first_lines()
    ensures { (bytes others : List ℕ) (line rule : ℕ) → script_of bytes ≡ Err (line, rule)
        → take line (lines bytes) ≡ take line (lines others) → script_of others ≡ Err (line, rule) }
{}
