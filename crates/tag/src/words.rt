// The words of a line: what stands before, between and behind its spaces. A word may be empty.

const SPACE: u8 = b' ';

// The first `n` octets, or none where there are fewer.
pub(crate) fn front(s: &[u8], n: usize) -> &[u8] {
    s.get(..n).unwrap_or(&s[..0])
}

// Word `k` of the line, counted from 0; empty where the line has fewer.
pub(crate) fn word(line: &[u8], k: usize) -> &[u8] {
    line.split(|c| *c == SPACE).nth(k).unwrap_or(&line[..0])
}

// Whether the line has `n` words and the first is this name. The name comes first: most lines are counted once then.
pub(crate) fn has_form(line: &[u8], name: &[u8], n: usize) -> bool {
    word(line, 0) == name && line.split(|c| *c == SPACE).count() == n
}
