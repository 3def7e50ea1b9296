//! What holds of every graph.
ghost use Rattle.em_log.specs.declared.graph.Config.{Config};
ghost use Rattle.em_log.specs.Declarations.{declarations_of};
ghost use Rattle.em_log.specs.WellFormed.{IsWellFormed};
ghost use Rattle.em_desk.specs.Graphs.{AreInBounds};

/// A desk can be built over every well-formed graph.
pub fn well_formed_is_in_bounds()
    ensures { (g : Config) → IsWellFormed g → AreInBounds (declarations_of g) }
{}
