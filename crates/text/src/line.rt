// A line as it comes in, in as many parts as the reads make of it. A line that does not fit says so, and is neither cut nor gathered whole.
ghost use Rattle.std.specs.Prelude.{◌≡◌, ◌∷◌, ◌++◌, ◌≤◌, length, IfOk, IfSome};

pub const LINE_LENGTH: usize = 256;

const LINE_END: u8 = b'\n';

// More bytes came than fit.
#[derive(Clone, Copy, Debug, PartialEq, Eq)]
pub struct TooLong;

// A value that can be copied, so its bytes have a room of their own: the library's ArrayVec is not Copy.
#[derive(Clone, Copy)]
pub struct Line {
    room: [u8; LINE_LENGTH],
    // How many bytes of the room are the line's.
    length: Result<usize, TooLong>,
}

impl Line {
    pub fn new() -> Self {
        Line {
            room: [0; LINE_LENGTH],
            length: Ok(0),
        }
    }

    // More bytes of the line, all of them or none.
    pub fn append(&mut self, more: &[u8]) {
        if let Ok(at) = self.length {
            self.length = Err(TooLong);
            if at <= LINE_LENGTH && more.len() <= LINE_LENGTH - at {
                self.room[at..at + more.len()].copy_from_slice(more);
                self.length = Ok(at + more.len());
            }
        }
    }

    pub fn bytes(&self) -> Result<&[u8], TooLong>
        ensures { IfOk result (λ bytes. length bytes.now ≤ LINE_LENGTH) }
    {
        self.room.get(..self.length?).ok_or(TooLong)
    }
}

// What of a text stands before its first line end, and what stands behind it.
pub fn split_at_end(text: &[u8]) -> Option<(&[u8], &[u8])>
    ensures { IfSome result (λ parts. text.now ≡ parts.0.now ++ LINE_END ∷ parts.1.now) }
{
    let end = text.iter().position(|b| *b == LINE_END)?;
    Some((&text[..end], &text[end + 1..]))
}
