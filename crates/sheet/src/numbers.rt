// What a sheet tells of itself.
ghost use Rattle.sheet.specs.States.{numbers_of};
ghost use Rattle.std.specs.Prelude.{◌≡◌};

use crate::state::Sheet;

impl Sheet {
    /// The steps accepted since opening.
    pub fn steps(&self) -> u32
        ensures { result ≡ (numbers_of self.now).steps }
    {
        self.steps
    }

    /// How many individuals there are: the base's, then new ones.
    pub fn individuals(&self) -> u16
        ensures { result ≡ (numbers_of self.now).individuals }
    {
        self.individuals
    }

    /// Whether it is closed.
    pub fn is_closed(&self) -> bool
        ensures { result ≡ (numbers_of self.now).closed }
    {
        self.closed
    }
}
