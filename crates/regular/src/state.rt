// States of a sheet's watch can be kept in a set of keys.
ghost use Rattle.regular.specs.States.{positions_key};

use crate::positions::Positions;
use model::Key;

impl Key for Positions {
    ghost kind = { positions_key };

    fn same(&self, other: &Positions) -> bool {
        *self == *other
    }

    fn digest(&self) -> u64 {
        match *self {
            Positions::Start => u64::MAX,
            Positions::After(set) => set,
        }
    }
}
