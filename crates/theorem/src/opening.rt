// What an open sheet says of its base.
ghost use Rattle.theorem.specs.Opening.{OpenWalksSatisfy};

/// The walks of a branch on which the eight conditions of review hold are an interpretation that satisfies the base.
pub fn open_walks_satisfy()
    ensures { OpenWalksSatisfy }
{}
