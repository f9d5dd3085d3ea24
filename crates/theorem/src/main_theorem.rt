// The main theorem, over the definitions of the calculus.
ghost use Rattle.theorem.specs.MainTheorem.{MainTheorem};

/// Over every base, and on every sheet that is reached by a run, review finds closed or open exactly where it should.
/// Closed: no interpretation satisfies the base, and an asked statement follows. Open: the sheet's walks are an
/// interpretation that satisfies the base, and break an asked statement.
pub fn findings_hold()
    ensures { MainTheorem }
{}
