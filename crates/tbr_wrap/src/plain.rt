//! Plain characters, which can be added to a word or a line many at once.
ghost use Rattle.std.specs.Prelude.{◌≡◌, ◌≤◌, ◌<◌, ◌+◌, ◌∷◌, ℕ, Bool, List, length, take, drop, Some, false, fold, nat_lt};
ghost use Rattle.tbr_wrap.specs.Plain as plain;
ghost use Rattle.tbr_wrap.specs.Plain.{ArePlain, IsStretch, AreWords, reads};

use tbr_model::CharWidth;
use tbr_tagged::is_wordbreak_point;

/// How many plain characters a text begins with, at most `room`.
///
/// A plain character is printable ASCII of one column; the space is one only if `spaced` is set.
pub fn plain_in_front<W: CharWidth>(text: &str, spaced: bool, room: usize) -> usize
    ensures within { result ≤ length text.now }
    ensures room { result ≤ room }
    ensures plain { ArePlain W.columns spaced (take result text.now) }
    ensures all { (b : ℕ) (rest : List ℕ) → drop result text.now ≡ b ∷ rest → result < room →
        plain.is_plain W.columns spaced b ≡ false }
{
    let bytes = text.as_bytes();
    let most = bytes.len().min(room);
    let mut count = 0;
    while count < most && is_plain::<W>(bytes[count], spaced) {
        count += 1;
    }
    count
}

/// Whether a text begins with a space.
pub fn begins_with_space(text: &str) -> bool
    ensures { result ≡ plain.begins_with_space text.now }
{
    match text.as_bytes().first() {
        Some(byte) => *byte == b' ',
        None => false,
    }
}

/// The beginning of a text: its bytes, its characters and the columns that these take.
#[derive(Clone, Copy)]
pub struct Stretch {
    pub bytes: usize,
    pub count: usize,
    pub columns: usize,
}

/// The beginning of no characters.
pub const NO_STRETCH: Stretch = Stretch {
    bytes: 0,
    count: 0,
    columns: 0,
};

/// The characters at the beginning of a text at which no word ends, as many as fit into `room` columns. Each has a
/// width.
pub fn letters_in_front<W: CharWidth>(text: &str, room: usize) -> Stretch
    ensures letters { (keeps inside : Bool) → IsStretch W.columns keeps inside text.now result }
    ensures room { result.columns ≤ room }
{
    let mut front = NO_STRETCH;
    for c in text.chars() {
        let Some(width) = kept_width::<W>(c) else {
            return front;
        };
        if width > room - front.columns {
            return front;
        }
        front.bytes += c.len_utf8();
        front.count += 1;
        front.columns += width;
    }
    front
}

/// The columns of a character at which no word ends.
fn kept_width<W: CharWidth>(c: char) -> Option<usize>
    ensures { result ≡ plain.kept_width W.columns c }
{
    if is_wordbreak_point(c) {
        return None;
    }
    W::width(c)
}

/// How many bytes the first words of a text take, each with the space after it, and how many bytes it has read. Where it
/// has found no words, these are of the first one.
///
/// The characters of words are plain. All but the last space fit into `room` columns.
pub fn words_in_front<W: CharWidth>(text: &str, room: usize) -> (usize, usize)
    ensures within { result.0 ≤ length text.now }
    ensures room { result.0 ≤ room + 1 }
    ensures words { 0 < result.0 → AreWords W.columns (take result.0 text.now) }
    ensures read { result.0 ≡ 0 → ArePlain W.columns false (take result.1 text.now) }
{
    let bytes = text.as_bytes();
    let most = bytes.len().min(room.saturating_add(1));
    let mut end = 0;
    while end < most {
        let after = word_end::<W>(bytes, end, most);
        if after == end || after == most || bytes[after] != b' ' {
            return (end, after);
        }
        end = after + 1;
    }
    (end, end)
}

/// Where the narrow characters that begin at a place end, at most at another place.
fn word_end<W: CharWidth>(bytes: &[u8], start: usize, most: usize) -> usize
    requires { (start ≤ most) × (most ≤ length bytes.now) }
    ensures within { (start ≤ result) × (result ≤ most) }
    ensures read { fold (reads W.columns) (Some false) (take start bytes.now) ≡ Some false →
        fold (reads W.columns) (Some false) (take result bytes.now) ≡ Some (nat_lt start result) }
    ensures first { start ≡ 0 → ArePlain W.columns false (take result bytes.now) }
{
    let mut at = start;
    while at < most && is_narrow::<W>(bytes[at]) {
        at += 1;
    }
    at
}

/// Whether a byte is a plain character other than the space.
fn is_narrow<W: CharWidth>(byte: u8) -> bool
    ensures { result ≡ plain.is_narrow W.columns byte }
{
    match plain_width::<W>(byte) {
        Some(width) => width == 1,
        None => false,
    }
}

/// Whether a byte is a plain character. The space is one only if `spaced` is set.
fn is_plain<W: CharWidth>(byte: u8, spaced: bool) -> bool
    ensures { result ≡ plain.is_plain W.columns spaced byte }
{
    is_narrow::<W>(byte) || (spaced && byte == b' ')
}

/// The columns of printable ASCII other than the space.
fn plain_width<W: CharWidth>(byte: u8) -> Option<usize>
    ensures { result ≡ plain.plain_width W.columns byte }
{
    if byte.is_ascii_graphic() {
        W::width(char::from(byte))
    } else {
        None
    }
}
