// A text as a decimal number from 0 to 255.
ghost use Rattle.std.specs.Prelude.{◌≡◌};
ghost use Rattle.console.specs.Numbers.{more, number_in};

// The number that one more digit makes.
#[tactic(auto, unfolding(crate::specs::Numbers::more))]
fn more(value: u8, digit: u8) -> Option<u8>
    ensures { result ≡ more value digit }
{
    match digit {
        b'0'..=b'9' => value.checked_mul(10)?.checked_add(digit - b'0'),
        _ => None,
    }
}

// The number that the text writes; the empty text writes none.
// Rules out: 255 for a number that is above 255, which is no number `no_number_read_as_255`; 0 for the empty text, which is no
// number `nothing_taken_for_a_number`.
#[tactic(auto, unfolding(crate::specs::Numbers::number_in, crate::specs::Numbers::value_of))]
pub fn number_in(text: &[u8]) -> Option<u8>
    ensures { result ≡ number_in text.now }
{
    if text.is_empty() {
        return None;
    }
    let mut value = 0;
    for digit in text {
        value = more(value, *digit)?;
    }
    Some(value)
}
