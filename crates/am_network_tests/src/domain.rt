//! Domain files: what no run of the program prints of one. What `check` prints, and the line of each refusal, are no matter
//! of a test: `examples/check.sh` asks them of the built program.

use crate::samples::domain_of;
use am_addr::parse;
use am_ip6::Place;
use am_samples::TWO;
use std::test::Fail;

// Threads may share such a value, and one may hand it to another.
fn is_shared<T: Sync + Send>(_value: &T) {}

#[test]
fn a_domain_is_what_its_file_says(rt: HostRuntime) -> Result<(), Fail> {
    let domain = domain_of(rt.alloc(), TWO)?;
    is_shared(&domain);
    assert!(rt; domain.place() == Place::HopByHop);
    assert!(rt; domain.workers() == 1);
    assert!(rt; domain.node_named("b") == Some(1));
    assert!(rt; domain.node_named("c").is_none());
    Ok(())
}

#[test]
fn a_flow_is_found_by_its_number_and_its_addresses(rt: HostRuntime) -> Result<(), Fail> {
    let domain = domain_of(rt.alloc(), TWO)?;
    assert!(rt; domain.flow_of_id(74_565) == Some(0));
    assert!(rt; domain.flow_of_id(74_566).is_none());
    let source = parse("2001:db8:1:2::7").ok_or("an address")?;
    let destination = parse("2001:db8:2::9").ok_or("an address")?;
    assert!(rt; domain.flow_of(&source, &destination) == Some(0));
    assert!(rt; domain.flow_of(&destination, &source).is_none());
    Ok(())
}
