// Why a call was turned away: who says so, the cause, and the place.
ghost use Rattle.std.specs.Prelude.{◌≡◌};
ghost use Rattle.model.specs.Refusals.{layer_number, cause_number};

// Who refuses.
#[derive(Clone, Copy, Debug, PartialEq, Eq)]
pub enum Layer {
    Job = 1,
    Program = 2,
    Sheet = 3,
    Monitor = 4,
    Steps = 5,
    Check = 6,
}

// What is wrong, in the order in which one cause goes before another.
#[derive(Clone, Copy, Debug, PartialEq, Eq)]
pub enum Cause {
    Size = 1,
    Trailer = 2,
    Length = 3,
    Byte = 4,
    Unexpected = 5,
    Number = 6,
    Range = 7,
    Starts = 8,
    Register = 9,
    Break = 10,
    Many = 11,
    Deep = 12,
    Step = 13,
    NoRun = 14,
    Beyond = 15,
    Misfit = 16,
    Large = 17,
    Line = 18,
}

#[derive(Clone, Copy, Debug, PartialEq, Eq)]
pub struct Refusal {
    pub layer: Layer,
    pub cause: Cause,
    pub place: usize,
}

impl Refusal {
    pub fn new(layer: Layer, cause: Cause, place: usize) -> Refusal
        ensures { result ≡ record { layer = layer; cause = cause; place = place } }
    {
        Refusal {
            layer,
            cause,
            place,
        }
    }
}

// The number that a report prints for a layer.
impl From<Layer> for u8 {
    ghost from_gives = { λ layer number. number ≡ layer_number layer };

    fn from(layer: Layer) -> u8 {
        layer as u8
    }
}

// The number that a report prints for a cause.
impl From<Cause> for u8 {
    ghost from_gives = { λ cause number. number ≡ cause_number cause };

    fn from(cause: Cause) -> u8 {
        cause as u8
    }
}
