ghost use Rattle.std.specs.Prelude.{◌≡◌, ◌<◌, ◌*◌, ◌/◌, ◌%◌, ◌^◌};
ghost use Rattle.std.specs.Int.{from_bool};

// The field of a word that has so many bits from this one on.
pub fn field(word: u64, at: u32, bits: u32) -> u64
    requires at { at < 64 }
    requires bits { bits < 64 }
    ensures { result ≡ word / 2 ^ at % 2 ^ bits }
{
    word >> at & ((1 << bits) - 1)
}

// Whether this bit of a word is set.
pub fn flag(word: u64, at: u32) -> bool
    requires { at < 64 }
    ensures { from_bool result ≡ word / 2 ^ at % 2 }
{
    word >> at & 1 == 1
}
