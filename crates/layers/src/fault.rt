// Why a layer refuses a call.
ghost use Rattle.layers.specs.Growing.{layer_fault_numbers};
ghost use Rattle.layers.specs.declared.fault.LayerFault.TheVariants.{Row};
ghost use Rattle.std.specs.Prelude.{◌≡◌, slice_index};

use rows::RowFault;

/// Why a layer refuses to change.
#[derive(Clone, Copy, Debug, PartialEq, Eq)]
pub enum LayerFault {
    /// There is no room for one more: 3.
    Full,
    /// There is no row to change: 1.
    Row(RowFault),
}

impl From<RowFault> for LayerFault {
    ghost from_gives = { λ f r. r ≡ Row f };

    fn from(f: RowFault) -> LayerFault {
        LayerFault::Row(f)
    }
}

impl LayerFault {
    /// The number that the fault is told by. It is published (docs/NUMBERS.md).
    pub fn number(self) -> u16
        ensures { result ≡ slice_index (layer_fault_numbers self) 0 }
    {
        match self {
            LayerFault::Full => 3,
            LayerFault::Row(RowFault::NoSuchRow) => 1,
        }
    }
}
