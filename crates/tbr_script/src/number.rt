//! Numbers of a script.
ghost use Rattle.std.specs.Prelude.{◌≡◌};
ghost use Rattle.tbr_script.specs.Read.{number_read, size_read, byte_read, character_read};

/// The value of decimal digits. `None` without a digit, with any other character, and past `usize`.
pub fn parse_number(digits: &str) -> Option<usize>
    ensures { result ≡ number_read digits.now }
{
    // `parse` takes a plus in front, a script doesn't.
    if digits.starts_with('+') {
        return None;
    }
    digits.parse::<usize>().ok()
}

/// The size that decimal digits name, from 1 to the greatest `usize`. `None` for anything else.
pub fn parse_size(digits: &str) -> Option<usize>
    ensures { result ≡ size_read digits.now }
{
    parse_number(digits).filter(|size| *size > 0)
}

/// The value of decimal digits up to 255. `None` for anything else.
pub fn parse_byte(digits: &str) -> Option<u8>
    ensures { result ≡ byte_read digits.now }
{
    if digits.starts_with('+') {
        return None;
    }
    digits.parse::<u8>().ok()
}

/// The character that one to six hexadecimal digits name, if they name one.
pub fn character(digits: &str) -> Option<char>
    ensures { result ≡ character_read digits.now }
{
    if digits.starts_with('+') || digits.len() > 6 {
        return None;
    }
    let code = u32::from_str_radix(digits, 16).ok()?;
    char::from_u32(code)
}
