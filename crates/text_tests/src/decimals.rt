// Reading and writing against a table of values from outside.
mod table;

use arrayvec::ArrayVec;
use grid_number::{NumberFault, read_grid, write_grid};
use std::process::Abort;
use table::{READ, WRITTEN};

// What stands before the first blank, and what after it.
fn cut(row: &[u8]) -> Option<(&[u8], &[u8])> {
    for (at, byte) in row.iter().enumerate() {
        if *byte == b' ' {
            return Some((&row[..at], &row[at + 1..]));
        }
    }
    None
}

// The parts of a row: a digit, a word, and a text.
fn parts(row: &[u8]) -> Option<(u8, &[u8], &[u8])> {
    let [digit, b' ', rest @ ..] = row else {
        return None;
    };
    let (word, text) = cut(rest)?;
    Some((digit.wrapping_sub(b'0'), word, text))
}

// The whole number of a word of one to ten digits, below 0 after a dash.
fn number_of(word: &[u8]) -> Option<i64> {
    let (is_below, digits) = match word {
        [b'-', rest @ ..] => (true, rest),
        _ => (false, word),
    };
    if digits.is_empty() || digits.len() > 10 {
        return None;
    }
    let mut number = 0i64;
    for digit in digits {
        if !digit.is_ascii_digit() {
            return None;
        }
        number = number
            .wrapping_mul(10)
            .wrapping_add(digit.wrapping_sub(b'0') as i64);
    }
    Some(if is_below {
        number.wrapping_neg()
    } else {
        number
    })
}

// Whether a word is that of what was read.
fn is_word_of(found: Result<i32, NumberFault>, word: &[u8]) -> bool {
    match found {
        Ok(value) => match number_of(word) {
            Some(number) => number == value as i64,
            None => false,
        },
        Err(NumberFault::NotANumber) => word == b"none".as_slice(),
        Err(NumberFault::OutOfGrid) => word == b"beyond".as_slice(),
    }
}

// Whether the text of a row is read as the row says.
fn is_read(row: &str) -> bool {
    match parts(row.as_bytes()) {
        Some((digits, word, text)) => digits <= 6 && is_word_of(read_grid(text, digits), word),
        None => false,
    }
}

// Asks that of each row of a table, and that there are so many.
fn expect_read(rt: &impl Abort, rows: &str, count: u32) {
    let mut found = 0u32;
    for row in rows.lines() {
        assert!(rt; is_read(row), "at {row}");
        found = found.saturating_add(1);
    }
    assert!(rt; found == count, "{found} rows");
}

// Whether a value is written as this text.
fn gives(value: i64, digits: u8, text: &[u8]) -> bool {
    if value.unsigned_abs() > 1 << 30 || digits > 6 {
        return false;
    }
    let mut into = ArrayVec::new();
    write_grid(value as i32, digits, &mut into);
    into.as_slice() == text
}

// Whether the value of a row is written as the row says.
fn is_written(row: &str) -> bool {
    match parts(row.as_bytes()) {
        Some((digits, word, text)) => match number_of(word) {
            Some(value) => gives(value, digits, text),
            None => false,
        },
        None => false,
    }
}

// Asks that of each row of a table, and that there are so many.
fn expect_written(rt: &impl Abort, rows: &str, count: u32) {
    let mut found = 0u32;
    for row in rows.lines() {
        assert!(rt; is_written(row), "at {row}");
        found = found.saturating_add(1);
    }
    assert!(rt; found == count, "{found} rows");
}

#[test]
fn reads_the_texts(rt: HostRuntime) {
    expect_read(&rt, READ, 299);
    // A text with the end of a line in it can't stand in a row.
    assert!(rt; is_word_of(read_grid(b"1\n", 2), b"none"));
}

#[test]
fn writes_the_values(rt: HostRuntime) {
    expect_written(&rt, WRITTEN, 82);
}
