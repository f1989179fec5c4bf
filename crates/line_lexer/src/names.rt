//! Names, by their bytes.

ghost use Rattle.std.specs.Prelude.{◌≡◌, true, false, not, MatchResult};
ghost use Rattle.std.specs.List.{list_all};
ghost use Rattle.line_lexer.specs.Names.{begins_name, continues_name, is_name, is_node, is_short_name};
ghost use Rattle.line_lexer.specs.Numbers.{is_point};

use refusals::Why;

const LONGEST_NAME: usize = 64;

const LONGEST_SHORT_NAME: usize = 30;

// For each byte 1 if it continues a name, else 0.
const CONTINUES_NAME: [u8; 256] = [
    0, 0, 0, 0, 0, 0, 0, 0, 0, 0, 0, 0, 0, 0, 0, 0, 0, 0, 0, 0, 0, 0, 0, 0, 0, 0, 0, 0, 0, 0, 0, 0,
    0, 0, 0, 0, 0, 0, 0, 0, 0, 0, 0, 0, 0, 0, 1, 0, 1, 1, 1, 1, 1, 1, 1, 1, 1, 1, 0, 0, 0, 0, 0, 0,
    0, 1, 1, 1, 1, 1, 1, 1, 1, 1, 1, 1, 1, 1, 1, 1, 1, 1, 1, 1, 1, 1, 1, 1, 1, 1, 1, 0, 0, 0, 0, 1,
    0, 1, 1, 1, 1, 1, 1, 1, 1, 1, 1, 1, 1, 1, 1, 1, 1, 1, 1, 1, 1, 1, 1, 1, 1, 1, 1, 0, 0, 0, 0, 0,
    0, 0, 0, 0, 0, 0, 0, 0, 0, 0, 0, 0, 0, 0, 0, 0, 0, 0, 0, 0, 0, 0, 0, 0, 0, 0, 0, 0, 0, 0, 0, 0,
    0, 0, 0, 0, 0, 0, 0, 0, 0, 0, 0, 0, 0, 0, 0, 0, 0, 0, 0, 0, 0, 0, 0, 0, 0, 0, 0, 0, 0, 0, 0, 0,
    0, 0, 0, 0, 0, 0, 0, 0, 0, 0, 0, 0, 0, 0, 0, 0, 0, 0, 0, 0, 0, 0, 0, 0, 0, 0, 0, 0, 0, 0, 0, 0,
    0, 0, 0, 0, 0, 0, 0, 0, 0, 0, 0, 0, 0, 0, 0, 0, 0, 0, 0, 0, 0, 0, 0, 0, 0, 0, 0, 0, 0, 0, 0, 0,
];

/// Whether a text is a name: a letter or `_`, then letters, digits, `_` and `.`, 1 to 64 bytes in all.
/// What is none is `Why::BadName`.
pub fn name(text: &str) -> Result<(), Why>
    ensures { MatchResult result
        (λ _. is_name text.now ≡ true)
        (λ why. (is_name text.now ≡ false) × (why ≡ Why.BadName)) }
{
    if is_name(text.as_bytes()) {
        Ok(())
    } else {
        Err(Why::BadName)
    }
}

/// Whether a text is a node of a circuit: letters, digits, `_` and `.`, 1 to 64 bytes in all. What is none is
/// `Why::BadName`.
pub fn node(text: &str) -> Result<(), Why>
    ensures { MatchResult result
        (λ _. is_node text.now ≡ true)
        (λ why. (is_node text.now ≡ false) × (why ≡ Why.BadName)) }
{
    if is_node(text.as_bytes()) {
        Ok(())
    } else {
        Err(Why::BadName)
    }
}

/// Whether a text is a short name: a letter or `_`, then letters, digits and `_`, 1 to 30 bytes in all.
/// What is none is `Why::BadName`.
pub fn short_name(text: &str) -> Result<(), Why>
    ensures { MatchResult result
        (λ _. is_short_name text.now ≡ true)
        (λ why. (is_short_name text.now ≡ false) × (why ≡ Why.BadName)) }
{
    if is_short_name(text.as_bytes()) {
        Ok(())
    } else {
        Err(Why::BadName)
    }
}

fn is_short_name(text: &[u8]) -> bool
    ensures { result ≡ is_short_name text.now }
{
    is_name(text) && text.len() <= LONGEST_SHORT_NAME && has_no_point(text)
}

fn has_no_point(bytes: &[u8]) -> bool
    ensures { result ≡ list_all (λ byte. not (is_point byte)) bytes.now }
{
    bytes.iter().all(|byte| *byte != b'.')
}

fn is_name(text: &[u8]) -> bool
    ensures { result ≡ is_name text.now }
{
    let Some((first, others)) = text.split_first() else {
        return false;
    };
    begins_name(*first) && all_continue_name(others) && text.len() <= LONGEST_NAME
}

fn is_node(text: &[u8]) -> bool
    ensures { result ≡ is_node text.now }
{
    !text.is_empty() && text.len() <= LONGEST_NAME && all_continue_name(text)
}

fn all_continue_name(bytes: &[u8]) -> bool
    ensures { result ≡ list_all continues_name bytes.now }
{
    bytes.iter().all(|byte| continues_name(*byte))
}

fn begins_name(byte: u8) -> bool
    ensures { result ≡ begins_name byte }
{
    byte.is_ascii_alphabetic() || byte == b'_'
}

fn continues_name(byte: u8) -> bool
    ensures { result ≡ continues_name byte }
{
    CONTINUES_NAME[byte as usize] == 1
}
