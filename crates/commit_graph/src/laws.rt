//! Laws of the definitions. Each is the contract of a function that does nothing.
ghost use Rattle.std.specs.Prelude.{List};
ghost use Rattle.commit_graph.specs.Covers.{listed_in, IsCovered, HasItsParents};
ghost use Rattle.commit_graph.specs.History.{Name};

/// What is covered has its parents covered, whatever list of parents each commit has.
pub fn covered_is_closed()
    ensures closed { (parents : Name → List Name) (target intro : Name) (entries : List Name)
        → HasItsParents (listed_in parents) (IsCovered (listed_in parents) target intro entries) }
{}
