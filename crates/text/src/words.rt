// A line's words: runs of bytes between spaces, and the signs `:`, `>` and `/`, each a word of its own. `#` starts a comment.
ghost use Rattle.std.specs.Prelude.{◌≤◌, length};

// The longest statement, a delegation, has eight words; a line with more is wrong whatever they are.
pub const WORD_LIMIT: usize = 12;

// A value that can be copied: the library's ArrayVec is not Copy.
#[derive(Clone, Copy)]
pub struct Words<'a> {
    room: [&'a [u8]; WORD_LIMIT],
    count: usize,
}

impl<'a> Words<'a> {
    pub fn as_slice<'b>(&'b self) -> &'b [&'a [u8]]
    where
        'a: 'b,
    {
        &self.room[..self.count.min(WORD_LIMIT)]
    }
}

#[derive(Clone, Copy, Debug, PartialEq, Eq)]
pub enum WordsError {
    // A byte that no word may have.
    StrangeByte,
    // More words than fit.
    TooMany,
}

pub fn split(line: &[u8]) -> Result<Words<'_>, WordsError> {
    let text = without_comment(line);
    if !text
        .iter()
        .all(|b| is_space(*b) || is_sign(*b) || is_letter(*b))
    {
        return Err(WordsError::StrangeByte);
    }
    let mut room = [b"".as_slice(); WORD_LIMIT];
    let mut count = 0;
    for word in text.chunk_by(|a, b| is_letter(*a) && is_letter(*b)) {
        if word.iter().all(|b| is_space(*b)) {
            continue;
        }
        if count == WORD_LIMIT {
            return Err(WordsError::TooMany);
        }
        room[count] = word;
        count += 1;
    }
    Ok(Words { room, count })
}

// The bytes from a to e, or none where the text has no such part.
pub fn part(text: &[u8], a: usize, e: usize) -> &[u8] {
    text.get(a..e).unwrap_or(&[])
}

// What a line says: its text from the first word's beginning to the last word's end.
pub fn whole(line: &[u8]) -> &[u8] {
    without_comment(line).trim_ascii()
}

fn without_comment(line: &[u8]) -> &[u8] {
    part(line, 0, comment_start(line))
}

// Where a line's comment begins, or else where the line ends.
fn comment_start(line: &[u8]) -> usize
    ensures { result ≤ length line.now }
{
    line.iter().position(|b| *b == b'#').unwrap_or(line.len())
}

// A carriage return counts as a space, so that a text from another system reads the same.
fn is_space(b: u8) -> bool {
    matches!(b, b' ' | b'\t' | b'\r')
}

pub fn is_sign(b: u8) -> bool {
    matches!(b, b':' | b'>' | b'/')
}

// What a word may have: every byte that shows, but for the two that would end a quoted label. Bytes above 127 are letters of other scripts.
fn is_letter(b: u8) -> bool {
    b > b' ' && !matches!(b, 127 | b'"' | b'\\') && !is_sign(b)
}
