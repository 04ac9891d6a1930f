// The pieces of a text, appended where there is room.
ghost use Rattle.std.specs.Prelude.{◌≡◌, ◌+◌, ◌≤◌, ◌<◌, [], ◌∷◌, ◌++◌, length, vec_len, decimal};
ghost use Rattle.std.specs.Vec.{vec_capacity};

use itoa::Buffer;

/// Appends bytes.
pub fn append(out: &mut Vec<u8>, bytes: &[u8])
    requires room { vec_len out.old + length bytes.now ≤ vec_capacity out.old }
    ensures text { out.new.items ≡ out.old.items ++ bytes.now }
    ensures len { vec_len out.new ≡ vec_len out.old + length bytes.now }
    ensures capacity { vec_capacity out.old ≤ vec_capacity out.new }
{
    let appended = out.extend_from_slice(bytes).is_ok();
    prove!(appended);
}

/// Appends one byte.
pub fn push_byte(out: &mut Vec<u8>, byte: u8)
    requires room { vec_len out.old < vec_capacity out.old }
    ensures text { out.new.items ≡ out.old.items ++ byte ∷ [] }
    ensures len { vec_len out.new ≡ vec_len out.old + 1 }
    ensures capacity { vec_capacity out.old ≤ vec_capacity out.new }
{
    out.push_reserved(byte);
}

/// Appends a word behind a space.
pub fn push_word(out: &mut Vec<u8>, word: &str)
    requires room { vec_len out.old + 1 + length word.now ≤ vec_capacity out.old }
    ensures text { out.new.items ≡ out.old.items ++ 32 ∷ word.now }
    ensures len { vec_len out.new ≡ vec_len out.old + 1 + length word.now }
    ensures capacity { vec_capacity out.old ≤ vec_capacity out.new }
{
    push_byte(out, b' ');
    append(out, word.as_bytes());
}

/// Appends the decimal digits of a number: at most 20.
pub fn push_digits(out: &mut Vec<u8>, n: u64)
    requires room { vec_len out.old + 20 ≤ vec_capacity out.old }
    ensures text { out.new.items ≡ out.old.items ++ decimal n }
    ensures grows { vec_len out.new ≤ vec_len out.old + 20 }
    ensures capacity { vec_capacity out.old ≤ vec_capacity out.new }
{
    append(out, Buffer::new().format(n).as_bytes());
}

/// Appends a number behind a space.
pub fn push_number(out: &mut Vec<u8>, n: u64)
    requires room { vec_len out.old + 21 ≤ vec_capacity out.old }
    ensures text { out.new.items ≡ out.old.items ++ 32 ∷ decimal n }
    ensures grows { vec_len out.new ≤ vec_len out.old + 21 }
    ensures capacity { vec_capacity out.old ≤ vec_capacity out.new }
{
    push_byte(out, b' ');
    push_digits(out, n);
}

/// Appends the decimal digits of a small number: at most 3.
pub fn push_small(out: &mut Vec<u8>, n: u8)
    requires room { vec_len out.old + 3 ≤ vec_capacity out.old }
    ensures text { out.new.items ≡ out.old.items ++ decimal n }
    ensures grows { vec_len out.new ≤ vec_len out.old + 3 }
    ensures capacity { vec_capacity out.old ≤ vec_capacity out.new }
{
    append(out, Buffer::new().format(n).as_bytes());
}
