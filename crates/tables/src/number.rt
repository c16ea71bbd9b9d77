ghost use Rattle.std.specs.Prelude.{◌≡◌, [], ◌∷◌};
ghost use Rattle.tables.specs.Numbers.{digit_of, go_on, number};

fn digit_of(byte: u8) -> Option<u16>
    ensures { result ≡ digit_of byte }
{
    match byte {
        b'0'..=b'9' => Some(u16::from(byte - b'0')),
        _ => None,
    }
}

// One digit more behind a number, if the number does not become too large.
fn with_digit(value: u16, byte: u8) -> Option<u16>
    ensures { result ≡ go_on value (byte ∷ []) }
{
    value.checked_mul(10)?.checked_add(digit_of(byte)?)
}

// One or more digits, of a number up to 65,535. It stops at the first digit that makes the number too large, so that
// no run of digits is too long for it.
pub(crate) fn number_of(word: &[u8]) -> Option<u16>
    ensures { result ≡ number word.now }
{
    if word.is_empty() {
        return None;
    }
    word.iter()
        .try_fold(0, |value, byte| with_digit(value, *byte))
}
