// A declared register's range, with the values that it may start with.
ghost use Rattle.std.specs.Prelude.{◌≡◌, true};
ghost use Rattle.traces.specs.Proper.{proper};

// LOW to HIGH are the values, FROM to TO the starts.
#[derive(Clone, Copy, Debug, PartialEq, Eq)]
pub struct Range {
    pub low: i16,
    pub high: i16,
    pub from: i16,
    pub to: i16,
    ghost sound: { proper low high from to ≡ true },
}
