// Marks: a string of 0 and 1 over a list of digests, which says what another list has of it.
use crate::fields::Run;

// Whether the text is marks over n digests; over none it is a dash.
pub(crate) fn are_marks(text: &[u8], n: usize) -> bool {
    if n == 0 {
        return text == b"-".as_slice();
    }
    text.len() == n && text.iter().all(|b| matches!(b, b'0' | b'1'))
}

// Whether the list is the marked ones of all, in their order.
pub(crate) fn marked(marks: &[u8], all: &[Run], list: &[Run]) -> bool {
    all.iter()
        .zip(marks)
        .filter(|(_, mark)| **mark == b'1')
        .map(|(run, _)| run)
        .eq(list)
}
