//! What is written of a world from a number, whose lost packets another program counted.

use crate::samples::domain_of;
use am_base::MemSink;
use am_meter::NoGate;
use am_samples::TWO;
use am_sim::{simulate, write_simulated};
use std::test::Fail;

// The captures of both nodes have one name, and no file is opened.
#[test]
fn what_is_dropped_is_reported(rt: HostRuntime) -> Result<(), Fail> {
    let alloc = rt.alloc();
    let text = TWO.replace(alloc, "v.pcap", "u.pcap")?;
    let domain = domain_of(alloc, text.as_str())?;
    for (packets, wanted) in [
        (0, "0,0,0,3,3\nnetwork,0,0,3,3\n"),
        (1000, "0,19,19,3,3\nnetwork,19,19,3,3\n"),
    ] {
        let rows = simulate(alloc, &domain, 7, packets, &NoGate)?;
        let mut out = MemSink::new(alloc, 1024, Vec::new(alloc))?;
        assert!(rt; write_simulated(alloc, &rows, &mut out).is_ok());
        let text = format!(in alloc; "cluster,true,reported,cells,equal\n{wanted}")?;
        assert!(rt; out.bytes() == text.as_bytes());
    }
    Ok(())
}
