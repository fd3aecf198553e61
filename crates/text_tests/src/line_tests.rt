//! Numbers and lines at the edges of their forms.
use forms::{Line, read_line};
use numerals::{NotANumber, number};
use std::test::Fail;

#[test]
fn numbers_have_one_to_seven_digits(rt: HostRuntime) {
    assert!(rt; number(b"-9999999") == Ok(-9_999_999));
    assert!(rt; number(b"0") == Ok(0));
    assert!(rt; number(b"10000000") == Err(NotANumber::TooLong));
    assert!(rt; number(b"") == Err(NotANumber::Empty));
    assert!(rt; number(b"-") == Err(NotANumber::Empty));
}

#[test]
fn numbers_are_canonical(rt: HostRuntime) {
    assert!(rt; number(b"-0") == Err(NotANumber::Zero));
    assert!(rt; number(b"007") == Err(NotANumber::Zero));
    assert!(rt; number(b"+7") == Err(NotANumber::NotADigit));
    assert!(rt; number(b"1 ") == Err(NotANumber::NotADigit));
}

// Whether a line is a form.
fn is_form(line: &[u8]) -> bool {
    match read_line(line) {
        Ok(_) => true,
        Err(_) => false,
    }
}

#[test]
fn lines_are_forms_to_the_byte(rt: HostRuntime) {
    assert!(rt; is_form(b"(depth 2)\n"));
    assert!(rt; !is_form(b"(depth 2)"));
    assert!(rt; !is_form(b"(depth  2)\n"));
    assert!(rt; !is_form(b"(depth 2) \n"));
    assert!(rt; !is_form(b"(depth 2)\n\n"));
    assert!(rt; !is_form(b"\n"));
    assert!(rt; !is_form(b""));
}

#[test]
fn lists_have_a_piece_at_least(rt: HostRuntime) {
    assert!(rt; is_form(b"(channel (kind taps) (noise 8) (taps 2))\n"));
    assert!(rt; !is_form(b"(channel (kind taps) (noise 8) (taps))\n"));
    assert!(rt; !is_form(b"(channel (kind taps) (noise 8) (taps ))\n"));
    assert!(rt; !is_form(b"(channel (kind table) (noise 8) (memory 1) (entries))\n"));
}

#[test]
fn entries_and_masks_are_told(rt: HostRuntime) {
    assert!(rt; is_form(b"(channel (kind table) (noise 8) (memory 1) (entries (1 -2) barred))\n"));
    assert!(rt; !is_form(b"(channel (kind table) (noise 8) (memory 1) (entries (1 -2)barred))\n"));
    assert!(rt; !is_form(b"(channel (kind table) (noise 8) (memory 1) (entries (1)))\n"));
    assert!(rt; is_form(b"(channel (kind code) (memory 3) (masks 7 5))\n"));
    assert!(rt; !is_form(b"(channel (kind code) (memory 3) (masks 7 5 5))\n"));
}

#[test]
fn places_have_two_or_four_priors(rt: HostRuntime) {
    assert!(rt; !is_form(b"(place (sample 0 0) (prior 0))\n"));
    assert!(rt; is_form(b"(place (sample 0 0) (prior 0 barred))\n"));
    assert!(rt; !is_form(b"(place (sample 0 0) (prior 0 0 0))\n"));
    assert!(rt; is_form(b"(place (sample 0 0) (prior barred 0 -1 99999))\n"));
    assert!(rt; !is_form(b"(place (sample 0 0) (prior 0 0 0 0 0))\n"));
}

#[test]
fn wide_taps_become_the_nearest(rt: HostRuntime) -> Result<(), Fail> {
    let line = read_line(b"(channel (kind taps) (noise 8) (taps 100000 -100000 7))\n")?;
    match line {
        Line::Taps(line) => {
            assert!(rt; line.taps() == [32_767, -32_768, 7].as_slice());
            Ok(())
        },
        _ => Err(Fail::new("this is a line of taps")),
    }
}
