// Lines of what is read, of any number, in fixed memory. A line is kept up to a length; what is behind it is passed over, which no line of the
// format survives as well-formed.
use crate::session::Session;
use arrayvec::ArrayVec;
use std::io::{self, Read};

const BLOCK_LENGTH: usize = 8192;

const LONGEST: usize = 4096;

const LINE_END: u8 = b'\n';

// Nothing says that the input ends, so the blocks are counted up to a number that no run uses up.
pub(crate) fn read<R: Print, I: Read + Drop>(
    mut input: I,
    session: &mut Session<'_, R>,
) -> io::Result<()> {
    let mut block = [0u8; BLOCK_LENGTH];
    let mut line = ArrayVec::<u8, LONGEST>::new();
    for _ in 0..u64::MAX {
        let n = input.read(&mut block)?;
        if n == 0 {
            break;
        }
        take(&block[..n], &mut line, session);
    }
    // The last line may have no end.
    if !line.is_empty() {
        session.read(line.as_slice());
    }
    Ok(())
}

// Some more of the text: what goes on with the line, and the lines that end in it.
fn take<R: Print>(text: &[u8], line: &mut ArrayVec<u8, LONGEST>, session: &mut Session<'_, R>) {
    let mut parts = text.split(|b| *b == LINE_END);
    let Some(first) = parts.next() else {
        return;
    };
    append(line, first);
    for part in parts {
        session.read(line.as_slice());
        line.clear();
        append(line, part);
    }
}

fn append(line: &mut ArrayVec<u8, LONGEST>, more: &[u8]) {
    let n = more.len().min(line.remaining_capacity());
    let _ = line.try_extend_from_slice(&more[..n]);
}
