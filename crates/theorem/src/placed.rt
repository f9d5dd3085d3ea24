// How the rows of every sheet that is reached lie among its individuals.
ghost use Rattle.calculus.specs.Runs.{Run};
ghost use Rattle.calculus.specs.States.{State, branch};
ghost use Rattle.kb.specs.Meanings.{Meaning};
ghost use Rattle.theorem.specs.Placed.{Placed};

/// Over every base, the rows of a sheet that is reached by a run are placed: the base's individuals come first, same rows
/// and the sources of rows into the base are of the base, and each new individual has exactly one role row into it.
pub fn runs_are_placed()
    ensures { (m : Meaning) (s : State) → Run m s → Placed m (branch s) }
{}
