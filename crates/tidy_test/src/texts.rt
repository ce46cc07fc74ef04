// Texts put together from pieces.

// A beginning, a piece, how many times, and the rest, between bars; a text without bars is its own beginning.
fn put_pieces(text: &mut [u8], pieces: &[u8]) -> usize {
    let a = lines::put(text, 0, rows::nth(pieces, b'|', 0));
    let b = lines::put_many(
        text,
        a,
        rows::nth(pieces, b'|', 1),
        cases::worth(rows::nth(pieces, b'|', 2)),
    );
    lines::put(text, b, rows::nth(pieces, b'|', 3))
}

// How long the text is that a line says.
pub fn written(text: &mut [u8], pieces: &[u8]) -> usize {
    let e = put_pieces(text, pieces);
    cases::put_meant(text);
    e
}
