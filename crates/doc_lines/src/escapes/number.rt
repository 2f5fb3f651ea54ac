//! The characters that numbers stand for.
ghost use Rattle.std.specs.Prelude.{◌≡◌, [], ◌∷◌, chars};
ghost use Rattle.std.specs.Char.{is_ascii_digit, is_ascii_hexdigit};
ghost use Rattle.doc_rules.specs.Escapes.{number, code_point};
ghost use Rattle.doc_lines.specs.MeaningSteps.{IsDigits};

/// The character with this code point; U+FFFD for zero and for what is no scalar value.
#[tactic(auto, unfolding(doc_rules::specs::Escapes::code_point))]
pub fn code_point(n: u32) -> char
    ensures { result ∷ [] ≡ code_point n }
{
    match char::from_u32(n) {
        Some(c) if c != '\0' => c,
        _ => '\u{FFFD}',
    }
}

/// The number that 1 to 7 digits write.
pub fn decimal_number(digits: &str) -> u32
    requires { IsDigits is_ascii_digit 7 (chars digits.now) }
    ensures { result ≡ number 10 (chars digits.now) }
{
    u32::from_str_radix(digits, 10).unwrap()
}

/// The number that 1 to 6 hexadecimal digits write.
pub fn hexadecimal_number(digits: &str) -> u32
    requires { IsDigits is_ascii_hexdigit 6 (chars digits.now) }
    ensures { result ≡ number 16 (chars digits.now) }
{
    u32::from_str_radix(digits, 16).unwrap()
}
