//! Numbers, and the values of a field that they are.

ghost use Rattle.std.specs.Prelude.{◌≡◌, ◌≤◌, ◌+◌, ◌<◌, ℕ, ◌^◌, Some, Ok, Err, MatchResult, length};
ghost use Rattle.std.specs.Char.{is_ascii_digit};
ghost use Rattle.std.specs.List.{list_all};
ghost use Rattle.std.specs.Str.Parse.{starts_with_minus, without_leading_sign};
ghost use Rattle.line_lexer.specs.Numbers.{is_numeral, numeral_of, quotient_of, decimal_of, fraction_of, residue_of, number_of, integer_of};

use refusals::Why;
use residue_field::Field;

const MOST_DIGITS: usize = 18;

// A whole number over another.
#[derive(Clone, Copy)]
struct Ratio {
    numerator: u64,
    denominator: u64,
}

/// The value of a number in the field: a sign or none, and then 1 to 18 digits, or two such numerals with a `/` between
/// them, or two with a `.` between them and at most 18 digits together.
///
/// Any other text is `Why::BadNumber`. A number is `Why::Vanish` where the modulus divides its denominator, or divides
/// its numerator though that is not 0.
pub fn number<F: Field>(text: &str) -> Result<F, Why>
    ensures { MatchResult result
        (λ value. number_of F.modulus text.now ≡ Ok (F.number value))
        (λ why. number_of F.modulus text.now ≡ Err why) }
{
    let (negative, unsigned) = split_sign(text);
    match fraction(unsigned) {
        Some(fraction) => residue(negative, fraction),
        None => Err(Why::BadNumber),
    }
}

/// The value of a whole number in the field. It is `Why::Vanish` where the modulus divides it though it is not 0.
pub fn integer<F: Field>(integer: i64) -> Result<F, Why>
    ensures { MatchResult result
        (λ value. integer_of F.modulus integer ≡ Ok (F.number value))
        (λ why. integer_of F.modulus integer ≡ Err why) }
{
    residue(
        integer.is_negative(),
        Ratio {
            numerator: integer.unsigned_abs(),
            denominator: 1,
        },
    )
}

// Whether a text begins with a minus, and the text without its sign.
fn split_sign(text: &str) -> (bool, &str)
    ensures negative { result.0 ≡ starts_with_minus text.now }
    ensures unsigned { result.1.now ≡ without_leading_sign text.now }
{
    if let Some(unsigned) = text.strip_prefix('-') {
        return (true, unsigned);
    }
    match text.strip_prefix('+') {
        Some(unsigned) => (false, unsigned),
        None => (false, text),
    }
}

fn fraction(text: &str) -> Option<Ratio>
    ensures { result ≡ fraction_of text.now }
{
    if let Some((numerator, denominator)) = text.split_once('/') {
        return quotient(numerator, denominator);
    }
    if let Some((whole, decimals)) = text.split_once('.') {
        return decimal(whole, decimals);
    }
    quotient(text, "1")
}

fn quotient(numerator: &str, denominator: &str) -> Option<Ratio>
    ensures { result ≡ quotient_of numerator.now denominator.now }
{
    let numerator = numeral(numerator)?;
    let denominator = numeral(denominator)?;
    Some(Ratio {
        numerator,
        denominator,
    })
}

// The fraction of all digits over the power of ten that the decimals need.
fn decimal(whole: &str, decimals: &str) -> Option<Ratio>
    ensures { result ≡ decimal_of whole.now decimals.now }
{
    if whole.len() + decimals.len() > MOST_DIGITS {
        return None;
    }
    let denominator = 10_u64.pow(decimals.len() as u32);
    let whole = numeral(whole)?;
    let decimals = numeral(decimals)?;
    Some(Ratio {
        numerator: whole * denominator + decimals,
        denominator,
    })
}

fn numeral(text: &str) -> Option<u64>
    ensures { result ≡ numeral_of text.now }
{
    if !is_numeral(text) {
        return None;
    }
    match text.parse::<u64>() {
        Ok(number) => Some(number),
        Err(_) => unreachable!(),
    }
}

fn is_numeral(text: &str) -> bool
    ensures { result ≡ is_numeral text.now }
{
    !text.is_empty() && text.len() <= MOST_DIGITS && are_digits(text.as_bytes())
}

fn are_digits(bytes: &[u8]) -> bool
    ensures { result ≡ list_all is_ascii_digit bytes.now }
{
    bytes.iter().all(|byte| byte.is_ascii_digit())
}

fn residue<F: Field>(negative: bool, fraction: Ratio) -> Result<F, Why>
    ensures { MatchResult result
        (λ value. residue_of F.modulus negative (Some fraction) ≡ Ok (F.number value))
        (λ why. residue_of F.modulus negative (Some fraction) ≡ Err why) }
{
    F::from_fraction(negative, fraction.numerator, fraction.denominator).or(Err(Why::Vanish))
}
