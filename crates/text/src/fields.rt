// Single fields: numbers, names, and where a byte first stands.
ghost use Rattle.std.specs.Prelude.{◌≡◌, ℕ, ◌<◌, ◌≤◌, length, take, Decides, MatchOption, slice_index};
ghost use Rattle.std.specs.Str.Parse.{AllDigits, digits_value};
ghost use Rattle.text.specs.Fields.{IsNumber, IsName, NameByte, Lacks};

// The number that at most ten digits write, or none where a byte is no digit. One step a byte. By hand, since the library's
// `parse` takes text: each byte would be looked at twice, which made reading a number twice as dear.
fn digits(field: &[u8]) -> Option<u64>
    requires { length field.now ≤ 10 }
    ensures { MatchOption result (¬ (AllDigits 10 field.now)) (λ v. AllDigits 10 field.now × (v ≡ digits_value 10 field.now)) }
{
    let mut value = 0;
    for b in field {
        if !b.is_ascii_digit() {
            return None;
        }
        value = value * 10 + u64::from(*b - b'0');
    }
    Some(value)
}

// The number that a field writes: 0, or digits without a leading zero, at most 4,294,967,295. One step a
// digit; of a field of more than ten bytes only the first is looked at.
#[tactic(auto, using(crate::proofs::Numbers::begins, crate::proofs::Numbers::short))]
pub(crate) fn number_in(field: &[u8]) -> Option<u32>
    ensures { MatchOption result ((n : ℕ) → IsNumber n field.now → ⊥) (λ n. IsNumber n field.now) }
{
    match field {
        [b'0'] | [b'1'..=b'9', ..] if field.len() <= 10 => {
            let value = digits(field)?;
            u32::try_from(value).ok()
        }
        _ => None,
    }
}

// The place of the first `b`, or none where there is none. One step a byte before it. A loop: with `position` reading prices
// and calls took at least a sixth more instructions.
pub(crate) fn place_of(bytes: &[u8], b: u8) -> Option<usize>
    ensures { MatchOption result
        (Lacks b bytes.now)
        (λ n. (n < length bytes.now) × Lacks b (take n bytes.now) × (slice_index bytes.now n ≡ b)) }
{
    for (n, x) in bytes.iter().enumerate() {
        if *x == b {
            return Some(n);
        }
    }
    None
}

// A byte that a name may have: a to z, 0 to 9, or a hyphen. Constant time.
fn is_name_byte(b: u8) -> bool
    ensures { Decides result (NameByte b) }
{
    matches!(b, b'a'..=b'z' | b'0'..=b'9' | b'-')
}

// Whether a field is a name: 1 to 20 bytes of a to z, 0 to 9 and hyphen. One step a byte of a name.
pub(crate) fn is_name(field: &[u8]) -> bool
    ensures { Decides result (IsName field.now) }
{
    (1..=20).contains(&field.len()) && field.iter().all(|b| is_name_byte(*b))
}
