// Reads and writes decimal numerals of four digits.
ghost use Rattle.std.specs.Prelude.{◌≡◌, ℕ, ◌+◌, ◌%◌, MatchOption};
ghost use Rattle.text_lines.specs.Decimal.{numeral, NumeralOf};

// The number that four digits write.
pub fn read_four(digits: &[u8]) -> Option<u16>
    ensures { MatchOption result
        ((n : ℕ) → NumeralOf digits.now 4 n → ⊥)
        (λ n. NumeralOf digits.now 4 n) }
{
    let four: &[u8; 4] = digits.as_array()?;
    let mut n = 0;
    for digit in four {
        n = n * 10 + char::from(*digit).to_digit(10)? as u16;
    }
    Some(n)
}

fn last_digit(n: u16) -> u8
    ensures { result ≡ 48 + n % 10 }
{
    b'0' + (n % 10) as u8
}

// The last four digits of a number.
pub fn write_four(n: u16) -> [u8; 4]
    ensures { result ≡ numeral 4 n }
{
    [n / 1000, n / 100, n / 10, n].map(last_digit)
}
