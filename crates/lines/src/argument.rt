// A number from an argument.
ghost use Rattle.std.specs.Prelude.{◌≡◌};
ghost use Rattle.lines.specs.Argument.{number_of};

// Decimal digits that say a u32, and nothing else: std's parse takes a sign too.
pub fn number_of(text: &[u8]) -> Option<u32>
    ensures { result ≡ number_of text.now }
{
    if text.is_empty() {
        return None;
    }
    let mut n: u32 = 0;
    for b in text {
        if !b.is_ascii_digit() {
            return None;
        }
        let digit = (*b - b'0') as u32;
        n = n.checked_mul(10)?.checked_add(digit)?;
    }
    Some(n)
}
