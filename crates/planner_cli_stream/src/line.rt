ghost use Rattle.std.specs.Prelude.{◌≡◌, ◌<◌, ◌≤◌, ◌∷◌, [], length, IfOk, IfSome, IfNone, option_map, slice_get};
ghost use Rattle.std.specs.Bool.{OnTrue};
ghost use Rattle.std.specs.List.{list_all, prefix_len};
ghost use Rattle.std.specs.Str.{IsAscii};
ghost use Rattle.planner_cli_stream.specs.Form.{texts};
ghost use Rattle.planner_cli_stream.specs.Line.{is_blank as is_blank_byte, is_line_byte, is_word_byte, joined, words_of};

use std::alloc::{AllocError, Global};
use std::str::from_utf8;

/// The words of a line of ASCII: its pieces between blanks and tabs.
pub fn words_in<'a>(alloc: Global, line: &'a [u8]) -> Result<Vec<&'a str>, AllocError>
    requires { IsAscii line.now }
    ensures { IfOk result (λ words. texts words.items ≡ words_of line.now) }
{
    let mut words = Vec::new(alloc);
    let mut rest = line;
    while let Some((word, after)) = next_word(rest) {
        words.push(text_of(word))?;
        rest = after;
    }
    Ok(words)
}

/// The words of a line of any bytes, joined by one blank.
pub fn joined_words(alloc: Global, line: &[u8]) -> Result<Vec<u8>, AllocError>
    ensures { IfOk result (λ text. text.items ≡ joined (words_of line.now)) }
{
    let mut text = Vec::new(alloc);
    let Some((first, mut rest)) = next_word(line) else {
        return Ok(text);
    };
    text.extend_from_slice(first)?;
    while let Some((word, after)) = next_word(rest) {
        text.push(b' ')?;
        text.extend_from_slice(word)?;
        rest = after;
    }
    Ok(text)
}

/// The line has printable ASCII and tabs alone: the bytes 20 to 7E hexadecimal and 09.
pub fn is_line_text(line: &[u8]) -> bool
    ensures value { result ≡ list_all is_line_byte line.now }
    ensures ascii { OnTrue result (IsAscii line.now) }
{
    line.iter().all(|byte| matches!(*byte, b'\t' | b' '..=b'~'))
}

/// The first word of a line of any bytes, or `None` where the line has none.
pub fn first_word(line: &[u8]) -> Option<&[u8]>
    ensures { option_map (λ word. word.now) result ≡ slice_get (words_of line.now) 0 }
{
    next_word(line).map(|(word, _)| word)
}

// The first word, and what follows it.
fn next_word(line: &[u8]) -> Option<(&[u8], &[u8])>
    ensures none { IfNone result (words_of line.now ≡ []) }
    ensures some { IfSome result (λ p. words_of line.now ≡ p.0.now ∷ words_of p.1.now) }
    ensures shorter { IfSome result (λ p. length p.1.now < length line.now) }
    ensures ascii { IfSome result (λ p. IsAscii line.now → IsAscii p.0.now × IsAscii p.1.now) }
{
    let text = &line[blanks_before(line)..];
    let end = word_len(text);
    if end == 0 {
        return None;
    }
    Some((&text[..end], &text[end..]))
}

fn is_blank(byte: u8) -> bool
    ensures { result ≡ is_blank_byte byte }
{
    byte == b' ' || byte == b'\t'
}

// How many blanks and tabs are at the front.
fn blanks_before(line: &[u8]) -> usize
    ensures count { result ≡ prefix_len is_blank_byte line.now }
    ensures within { result ≤ length line.now }
{
    line.iter().take_while(|byte| is_blank(**byte)).count()
}

// How many bytes come before the first blank or tab.
fn word_len(text: &[u8]) -> usize
    ensures count { result ≡ prefix_len is_word_byte text.now }
    ensures within { result ≤ length text.now }
{
    text.iter().take_while(|byte| !is_blank(**byte)).count()
}

fn text_of(word: &[u8]) -> &str
    requires { IsAscii word.now }
    ensures { result.now ≡ word.now }
{
    match from_utf8(word) {
        Ok(text) => text,
        Err(_) => unreachable!(),
    }
}
