//! Encoders of tuples of each size.
use super::put;
use bcder::Mode;
use bcder::encode::{Primitive, PrimitiveContent, WriteError};
use std::io;

/// Returns an encoder of the INTEGER with this number.
fn n(number: u8) -> Primitive<u8> {
    number.encode()
}

/// Writes a tuple of one to six.
fn write_small<W: io::Write>(count: usize, mode: Mode, target: &mut W) -> Result<(), WriteError> {
    match count {
        1 => put(&(n(1),), mode, target),
        2 => put(&(n(1), n(2)), mode, target),
        3 => put(&(n(1), n(2), n(3)), mode, target),
        4 => put(&(n(1), n(2), n(3), n(4)), mode, target),
        5 => put(&(n(1), n(2), n(3), n(4), n(5)), mode, target),
        _ => put(&(n(1), n(2), n(3), n(4), n(5), n(6)), mode, target),
    }
}

/// Writes a tuple of seven to nine.
fn write_large<W: io::Write>(count: usize, mode: Mode, target: &mut W) -> Result<(), WriteError> {
    match count {
        7 => put(&(n(1), n(2), n(3), n(4), n(5), n(6), n(7)), mode, target),
        8 => put(
            &(n(1), n(2), n(3), n(4), n(5), n(6), n(7), n(8)),
            mode,
            target,
        ),
        _ => {
            let values = (n(1), n(2), n(3), n(4), n(5), n(6), n(7), n(8), n(9));
            put(&values, mode, target)
        }
    }
}

/// Writes a tuple of ten to twelve.
fn write_largest<W: io::Write>(count: usize, mode: Mode, target: &mut W) -> Result<(), WriteError> {
    match count {
        10 => {
            let values = (n(1), n(2), n(3), n(4), n(5), n(6), n(7), n(8), n(9), n(10));
            put(&values, mode, target)
        }
        11 => {
            let values = (
                n(1),
                n(2),
                n(3),
                n(4),
                n(5),
                n(6),
                n(7),
                n(8),
                n(9),
                n(10),
                n(11),
            );
            put(&values, mode, target)
        }
        _ => {
            let values = (
                n(1),
                n(2),
                n(3),
                n(4),
                n(5),
                n(6),
                n(7),
                n(8),
                n(9),
                n(10),
                n(11),
                n(12),
            );
            put(&values, mode, target)
        }
    }
}

/// Writes a tuple of `count` INTEGERs, from 1 on.
pub fn write_tuple<W: io::Write>(
    count: usize,
    mode: Mode,
    target: &mut W,
) -> Result<(), WriteError> {
    match count {
        1..=6 => write_small(count, mode, target),
        7..=9 => write_large(count, mode, target),
        _ => write_largest(count, mode, target),
    }
}
