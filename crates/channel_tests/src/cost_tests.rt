//! Costs: barred above every number, and sums at the width of a number.
use cost::Cost;
use std::test::Fail;

#[test]
fn barred_exceeds_every_number(rt: HostRuntime) {
    let most = Cost::Eighths(u32::MAX);
    assert_eq!(rt; most.least(Cost::Barred), most);
    assert_eq!(rt; Cost::Barred.least(most), most);
    assert_eq!(rt; Cost::Barred.least(Cost::Barred), Cost::Barred);
    assert_eq!(rt; Cost::Eighths(3).least(Cost::Eighths(2)), Cost::Eighths(2));
}

#[test]
fn barred_plus_anything_is_barred(rt: HostRuntime) {
    let most = Cost::Eighths(u32::MAX);
    assert_eq!(rt; most.checked_plus(Cost::Barred), Some(Cost::Barred));
    assert_eq!(rt; Cost::Barred.checked_plus(most), Some(Cost::Barred));
    assert_eq!(rt; most.checked_plus(Cost::Eighths(0)), Some(most));
    assert_eq!(rt; most.checked_plus(Cost::Eighths(1)), None);
}

#[test]
fn a_cost_is_written_as_its_eighths_or_barred(rt: HostRuntime) -> Result<(), Fail> {
    assert_eq!(rt;
        Cost::Eighths(65_535).to_string(rt.alloc())?.as_str(),
        "65535"
    );
    assert_eq!(rt; Cost::Barred.to_string(rt.alloc())?.as_str(), "barred");
    Ok(())
}
