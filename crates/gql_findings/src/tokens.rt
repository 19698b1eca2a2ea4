//! The token at the front of a text.

ghost use Rattle.std.specs.Prelude.{◌≡◌, ◌≤◌, length};
ghost use Rattle.std.specs.List.{prefix_len};
ghost use Rattle.gql_text.specs.Chars.{is_name_byte, is_name_start};
ghost use Rattle.gql_findings.specs.Tokens as spec;

/// Whether a name starts with a byte.
fn starts_name(byte: u8) -> bool
    ensures { result ≡ is_name_start byte }
{
    byte == b'_' || byte.is_ascii_alphabetic()
}

/// Whether a byte is one of a name.
fn is_of_name(byte: u8) -> bool
    ensures { result ≡ is_name_byte byte }
{
    starts_name(byte) || byte.is_ascii_digit()
}

/// Whether a byte is still of the token that starts with the first one.
fn goes_on(first: u8, byte: u8) -> bool
    ensures { result ≡ spec.goes_on first byte }
{
    if starts_name(first) {
        return is_of_name(byte);
    }
    if first.is_ascii_digit() || first == b'-' {
        return is_of_name(byte) || byte == b'.';
    }
    first == b'"' && byte != b'"'
}

/// How many bytes after the first one are of its token.
fn rest_len(first: u8, rest: &[u8]) -> usize
    ensures value { result ≡ prefix_len (spec.goes_on first) rest.now }
    ensures within { result ≤ length rest.now }
{
    rest.iter()
        .take_while(|byte| goes_on(first, **byte))
        .count()
}

/// The token at the front of a text; empty where the text is.
pub fn token_of(text: &[u8]) -> &[u8]
    ensures { result.now ≡ spec.token_of text.now }
{
    match text {
        [first, rest @ ..] => {
            let count = rest_len(*first, rest);
            &text[..count + 1]
        }
        [] => &[],
    }
}
