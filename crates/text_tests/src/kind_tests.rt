//! The kind of a text's channel.
use text::{Cause, Fault, Kind, Malformed, find_kind};

// A fault of the text as such.
fn malformed(line: usize, why: Malformed) -> Result<Kind, Fault> {
    Err(Fault {
        line,
        cause: Cause::Text(why),
    })
}

#[test]
fn the_first_channel_line_decides(rt: HostRuntime) {
    assert!(rt;
        find_kind(b"(channel (kind taps) (noise 8) (taps 2 1))\nwhatever") == Ok(Kind::Taps)
    );
    assert!(rt;
        find_kind(b"(depth 2)\n(channel (kind code) (memory 99) (masks 7 5))\n") == Ok(Kind::Code)
    );
}

#[test]
fn heads_are_missing_or_repeated(rt: HostRuntime) {
    assert!(rt; find_kind(b"") == malformed(1, Malformed::Heads));
    assert!(rt; find_kind(b"(depth 2)\n") == malformed(2, Malformed::Heads));
    assert!(rt; find_kind(b"(depth 2)\n(depth 2)\n") == malformed(2, Malformed::Heads));
    assert!(rt; find_kind(b"(place (sample 0 0) (prior 0 0))\n") == malformed(1, Malformed::Heads));
}

#[test]
fn no_form_is_told_with_its_line(rt: HostRuntime) {
    assert!(rt; find_kind(b"\n") == malformed(1, Malformed::NotAForm));
    assert!(rt; find_kind(b"(depth 2)\n(chann") == malformed(2, Malformed::NotAForm));
}

#[test]
fn a_text_of_16384_bytes_is_read(rt: HostRuntime) {
    let long = [b'x'; 16_385];
    assert!(rt; find_kind(&long) == malformed(1, Malformed::TooLong));
    assert!(rt; find_kind(&long[0..16_384]) == malformed(1, Malformed::NotAForm));
}
