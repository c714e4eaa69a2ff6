//! Fields in memory of their own. Expected values are worked by hand from X.690, 8.3 and 8.9.
use crate::rows::{Read, Written, reads_and_rewrites};
use asn1::Sequence;
use bcder::Mode;

/// Two numbers, the second in memory of its own.
type Two = Sequence<(u32, Box<u32>)>;

const TWO: [Read; 4] = [
    (
        Mode::Der,
        &[0x30, 0x06, 0x02, 0x01, 0x05, 0x02, 0x01, 0x07],
        "Sequence((5, 7))",
    ),
    // of another type, none, and cut
    (
        Mode::Der,
        &[0x30, 0x06, 0x02, 0x01, 0x05, 0x04, 0x01, 0x07],
        "refused",
    ),
    (Mode::Der, &[0x30, 0x03, 0x02, 0x01, 0x05], "refused"),
    (
        Mode::Der,
        &[0x30, 0x05, 0x02, 0x01, 0x05, 0x02, 0x01],
        "refused",
    ),
];

const WRITTEN: [Written; 1] = [(
    &[0x30, 0x06, 0x02, 0x01, 0x05, 0x02, 0x01, 0x07],
    Mode::Der,
    &[0x30, 0x06, 0x02, 0x01, 0x05, 0x02, 0x01, 0x07],
)];

#[test]
fn a_boxed_number_is_read_and_written(rt: HostRuntime) {
    reads_and_rewrites::<Two>(&rt, rt.alloc(), &TWO, &WRITTEN);
}
