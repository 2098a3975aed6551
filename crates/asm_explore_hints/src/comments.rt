//! Comments as other languages begin them.

pub(crate) const COMMENT: &str = "a comment begins with `//`";

/// Whether two minus signs begin a comment in the last line of this text, behind a space.
pub(crate) fn ends_in_dashes(text: &[u8]) -> bool {
    let mut is_found = false;
    let (mut before_last, mut last) = (b'\n', b'\n');
    for byte in text {
        if *byte == b'\n' || *byte == b'/' {
            is_found = false;
        }
        if *byte == b'-' && last == b'-' && before_last.is_ascii_whitespace() {
            is_found = true;
        }
        before_last = last;
        last = *byte;
    }
    is_found
}
