// A statement of 40 bytes, which others can follow in a list, and a last one.
const STATEMENT: &[u8; 40] = b"if 61 <= m then f := f+2 else skip end; ";

const LAST: &[u8; 5] = b"leave";

// Fills a text with a rule: statements as long as there is room, a last one, and then what was there.
pub(crate) fn fill_rule(text: &mut [u8]) {
    let whole = text.len().saturating_sub(LAST.len()) / STATEMENT.len();
    let bytes = STATEMENT
        .iter()
        .cycle()
        .take(whole * STATEMENT.len())
        .chain(LAST);
    for (b, new) in text.iter_mut().zip(bytes) {
        *b = *new;
    }
}
