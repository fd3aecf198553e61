//! What is printed, and what is written.
use cost::{Cost, Lean};
use report::{Burst, Costs, Leans, Read};
use std::test::Fail;
use text::{Cause, Fault};
use writing::{DepthLine, TooShort, write_line};

#[test]
fn leans_have_three_digits(rt: HostRuntime) -> Result<(), Fail> {
    assert_eq!(rt; Lean::Eighths(-3).to_string(rt.alloc())?.as_str(), "-0.375");
    assert_eq!(rt; Lean::Eighths(0).to_string(rt.alloc())?.as_str(), "0.000");
    assert_eq!(rt; Lean::Eighths(13).to_string(rt.alloc())?.as_str(), "1.625");
    assert_eq!(rt; Lean::Neither.to_string(rt.alloc())?.as_str(), "neither");
    Ok(())
}

#[test]
fn faults_name_line_layer_and_number(rt: HostRuntime) -> Result<(), Fail> {
    let fault = Fault {
        line: 3,
        cause: Cause::Receiver(burst::Refusal::NotTaken),
    };
    assert_eq!(rt;
        fault.to_string(rt.alloc())?.as_str(),
        "(fault (line 3) (from receiver) (number 4))"
    );
    Ok(())
}

#[test]
fn bursts_and_places_are_printed(rt: HostRuntime) -> Result<(), Fail> {
    let burst = Burst {
        places: 2,
        best: None,
        columns: 4,
    };
    assert_eq!(rt;
        burst.to_string(rt.alloc())?.as_str(),
        "(burst (places 2) (dead) (columns 4))"
    );
    let read = Read {
        at: 0,
        shown: 1,
        costs: Costs::Two(Cost::Eighths(10), Cost::Eighths(7)),
        leans: Leans::Two(Lean::Eighths(3)),
    };
    assert_eq!(rt;
        read.to_string(rt.alloc())?.as_str(),
        "(read (at 0) (shown 1) (costs 10 7) (lean 0.375))"
    );
    Ok(())
}

#[test]
fn a_line_is_written_if_there_is_room(rt: HostRuntime) {
    let mut list = [b'.'; 11];
    assert!(rt; write_line(&DepthLine(2), &mut list[0..9]) == Err(TooShort));
    assert!(rt; list[0] == b'.');
    assert!(rt; write_line(&DepthLine(2), &mut list) == Ok(10));
    assert!(rt; &list == b"(depth 2)\n.");
}
