// What can be kept in a set of keys: copied, compared exactly, and spread over buckets by a digest.
ghost use Rattle.std.specs.Prelude.{◌≡◌};
ghost use Rattle.model.specs.Keys.{KeyMeaning, code_key};

pub trait Key: Copy {
    ghost kind: { KeyMeaning Self };

    // Whether the two are the same key, exactly. Not `==`: its meaning comes with the laws of keys, and who writes a watch
    // owes them here and nowhere else.
    fn same(&self, other: &Self) -> bool
        ensures { result ≡ kind.alike self.now other.now };

    // A number that depends on the key alone, so that unequal keys are spread over the buckets of a table.
    fn digest(&self) -> u64
        ensures { result ≡ kind.digest self.now };
}

// Codes are keys of their own.
impl Key for u64 {
    ghost kind = { code_key };

    fn same(&self, other: &u64) -> bool {
        *self == *other
    }

    fn digest(&self) -> u64 {
        *self
    }
}

// An odd number with no pattern in its bits: multiplying by it carries every bit of a key upwards.
pub const MULTIPLIER: u64 = 0x9e37_79b9_7f4a_7c15;
