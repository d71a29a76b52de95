ghost use Rattle.std.specs.Prelude.{◌≡◌, ℕ, ◌+◌, ◌/◌, ◌%◌, ◌<◌, length, slice_index};
ghost use Rattle.work_calendars.specs.Spelling.{digit};

/// The decimal digit of a number below ten.
pub(crate) fn digit(value: u32) -> u8
    requires { value < 10 }
    ensures { result ≡ digit value }
{
    b'0' + value as u8
}

// The value of a decimal digit. A byte that is no digit counts as 0.
fn digit_value(byte: u8) -> u32
    ensures below { result < 10 }
    ensures value { (n : ℕ) → n < 10 → byte ≡ digit n → result ≡ n }
{
    match byte {
        b'0'..=b'9' => (byte - b'0') as u32,
        _ => 0,
    }
}

/// The number that the two digits at that place spell. A byte that is no digit counts as 0, so a reader spells the
/// value again and compares.
pub(crate) fn two_digits_value(text: &[u8], at: usize) -> u32
    requires { at + 1 < length text.now }
    ensures below { result < 100 }
    ensures value { (n : ℕ) → n < 100 → slice_index text.now at ≡ digit (n / 10)
        → slice_index text.now (at + 1) ≡ digit (n % 10) → result ≡ n }
{
    digit_value(text[at]) * 10 + digit_value(text[at + 1])
}
