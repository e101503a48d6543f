//! How far a word, a line, a comment and a string reach.
ghost use Rattle.std.specs.Prelude.{◌≡◌, ◌≤◌, ◌<◌, ◌+◌, length, IfSome, position, ◌==◌, not};
ghost use Rattle.rv_dot.specs.Runs.{is_word_byte, line_len, word_len, pair_len, string_len, begins_with};

/// Whether the byte is a letter, a digit, `_` or `.`.
pub fn is_word_byte(byte: u8) -> bool
    ensures { result ≡ is_word_byte byte }
{
    matches!(byte, b'a'..=b'z' | b'A'..=b'Z' | b'0'..=b'9' | b'_' | b'.')
}

/// Whether the text begins with this byte.
pub fn begins_with(bytes: &[u8], byte: u8) -> bool
    ensures { result ≡ begins_with byte bytes.now }
{
    match bytes {
        [] => false,
        [first, ..] => *first == byte,
    }
}

/// The place of the line's end.
fn line_end(bytes: &[u8]) -> Option<usize>
    ensures value { result ≡ position (λ b. b == 10) bytes.now }
    ensures within { IfSome result (λ len. len < length bytes.now) }
{
    bytes.iter().position(|byte| *byte == b'\n')
}

/// The place of the first byte that is of no word.
fn word_end(bytes: &[u8]) -> Option<usize>
    ensures value { result ≡ position (λ b. not (is_word_byte b)) bytes.now }
    ensures within { IfSome result (λ len. len < length bytes.now) }
{
    bytes.iter().position(|byte| !is_word_byte(*byte))
}

/// How many bytes stand before the line's end.
pub fn line_len(bytes: &[u8]) -> usize
    ensures value { result ≡ line_len bytes.now }
    ensures within { result ≤ length bytes.now }
{
    line_end(bytes).unwrap_or(bytes.len())
}

/// How many bytes of a word stand at the front.
pub fn word_len(bytes: &[u8]) -> usize
    ensures value { result ≡ word_len bytes.now }
    ensures within { result ≤ length bytes.now }
{
    word_end(bytes).unwrap_or(bytes.len())
}

/// How many bytes stand before the first pair of these two.
#[tactic(auto, unfolding(crate::specs::Runs::pair_len), using(crate::proofs::Scans::counted_on_more, crate::proofs::Scans::counted_on_zero))]
pub fn pair_len(bytes: &[u8], one: u8, other: u8) -> Option<usize>
    ensures value { result ≡ pair_len one other bytes.now }
    ensures within { IfSome result (λ len. len + 1 < length bytes.now) }
{
    let mut rest = bytes;
    let mut len = 0;
    while let [first, after @ ..] = rest {
        if *first == one && begins_with(after, other) {
            return Some(len);
        }
        len += 1;
        rest = after;
    }
    None
}

/// How many bytes stand before the closing quote.
#[tactic(auto, unfolding(crate::specs::Runs::string_len), using(crate::proofs::Scans::counted_on_more, crate::proofs::Scans::counted_on_zero))]
pub fn string_len(bytes: &[u8]) -> Option<usize>
    ensures value { result ≡ string_len 34 bytes.now }
    ensures within { IfSome result (λ len. len < length bytes.now) }
{
    let mut rest = bytes;
    let mut len = 0;
    let mut before = b'"';
    while let [first, after @ ..] = rest {
        if *first == b'\n' {
            return None;
        }
        if *first == b'"' && before != b'\\' {
            return Some(len);
        }
        before = *first;
        len += 1;
        rest = after;
    }
    None
}
