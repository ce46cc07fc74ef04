// Bytes put together from pieces.

// A number, a colon and a piece: the piece so many times.
fn put_again(text: &mut [u8], at: usize, bytes: &[u8]) -> usize {
    lines::put_many(
        text,
        at,
        rows::nth(bytes, b':', 1),
        cases::worth(rows::nth(bytes, b':', 0)),
    )
}

// A piece between carets, and one as it stands.
fn put_both(text: &mut [u8], at: usize, again: &[u8], once: &[u8]) -> usize {
    let e = put_again(text, at, again);
    lines::put(text, e, once)
}

// What a byte stands for that has no sign of its own.
fn meant(b: u8) -> u8 {
    match b {
        b'$' => 10,
        b'&' => 9,
        b'!' => 13,
        b'%' => 12,
        b'@' => 0,
        _ => b,
    }
}

fn put_meant(text: &mut [u8]) {
    for b in text.iter_mut() {
        *b = meant(*b);
    }
}

fn put_line(text: &mut [u8], line: &[u8]) -> usize {
    let n = cases::count(line, b'^') / 2;
    let mut e = lines::put(text, 0, rows::nth(line, b'^', 0));
    for i in 0..n {
        e = put_both(
            text,
            e,
            rows::nth(line, b'^', i * 2 + 1),
            rows::nth(line, b'^', i * 2 + 2),
        );
    }
    e
}

// What a line says, every other piece between its carets to be put again and again: how long it is.
pub fn written(text: &mut [u8], line: &[u8]) -> usize {
    let e = put_line(text, line);
    put_meant(text);
    e
}
