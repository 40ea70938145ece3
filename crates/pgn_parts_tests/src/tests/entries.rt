// What bytes are no entry for. That these are read which are one, and how, each run shows whose sessions listen.
use pgn_base::Format;
use pgn_entry::{EntryFault, read_entry};

// Bytes of each format, written by hand, and their fault.
const REFUSED: [(Format, &[u8], EntryFault); 10] = [
    // A byte less than is stated; a length below the least.
    (
        Format::One,
        b"\x18\0\0\0\x07\0\0\0\x04\0\0\0\xeb\x03\0\0c\0xx\0\0\0",
        EntryFault::Short,
    ),
    (
        Format::One,
        b"\x10\0\0\0\x07\0\0\0\x04\0\0\0\xeb\x03\0\0c\0\0\0",
        EntryFault::BadLength,
    ),
    // One zero byte alone.
    (
        Format::One,
        b"\x14\0\0\0\x07\0\0\0\x04\0\0\0\xeb\x03\0\0c\0cc",
        EntryFault::NoNul,
    ),
    // A payload that is no UTF-8; a filler that carries a byte.
    (
        Format::One,
        b"\x14\0\0\0\x07\0\0\0\x04\0\0\0\xeb\x03\0\0c\0\xe4\0",
        EntryFault::BadText,
    ),
    (
        Format::One,
        b"\x14\0\0\0\0\0\0\0\x05\0\0\0\xea\x03\0\0\0\0\0\x01",
        EntryFault::BadText,
    ),
    // A length that is more than the texts need; a byte behind them that is not zero.
    (
        Format::One,
        b"\x18\0\0\0\x07\0\0\0\x04\0\0\0\xeb\x03\0\0c\0\0\0\0\0\0\0",
        EntryFault::BadPad,
    ),
    (
        Format::One,
        b"\x18\0\0\0\x01\0\0\0\x03\0\0\0\xe9\x03\0\0c\0xy\0\0\0\x01",
        EntryFault::BadPad,
    ),
    // A length that is a multiple of 4 alone; no channel; a head that does not end with zero bytes, before a body that has none.
    (
        Format::Two,
        b"\x24\0\0\0\x07\0\0\0\x04\0\0\0\0\0\0\0\xeb\x03\0\0\0\0\0\0c\0\0\0\0\0\0\0\0\0\0\0",
        EntryFault::BadLength,
    ),
    (
        Format::Two,
        b"\x20\0\0\0\x07\0\0\0\x04\0\0\0\0\0\0\0\xeb\x03\0\0\0\0\0\0\0\0cccccc",
        EntryFault::BadText,
    ),
    (
        Format::Two,
        b"\x20\0\0\0\x07\0\0\0\x04\0\0\0\0\0\0\0\xeb\x03\0\0\0\0\0\x01cccccccc",
        EntryFault::BadPad,
    ),
];

// Whether bytes have that fault. A call of its own, so that what `read_entry` promises is worked out once.
fn have_fault(format: Format, bytes: &[u8], fault: EntryFault) -> bool {
    match read_entry(format, bytes) {
        Ok(_) => false,
        Err(found) => found == fault,
    }
}

#[test]
fn bytes_that_are_refused(rt: HostRuntime) {
    for (format, bytes, fault) in &REFUSED {
        assert!(rt; have_fault(*format, *bytes, *fault), "{bytes:?}");
    }
}
