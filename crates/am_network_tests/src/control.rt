//! The loss table of a small network, worked out by hand.

ghost use Rattle.std.specs.Prelude.{OnOk};
ghost use Rattle.am_control.specs.Controls.{IsControlOf};

use crate::samples::{REPORT_HEAD, network};
use am_base::MemSink;
use am_control::{Control, ControlError, Scope, write_loss};
use am_domain::Domain;
use am_report::{MAX_REPORT, read_report};
use std::alloc::Global;
use std::test::Fail;

// What the three nodes of a way count of two flows in the blocks 0 and 1. Of flow v a packet comes from nowhere; packets
// of flow w are lost, one of them with the delay bit, and the first two leave sooner, by the clocks, than they enter.
const A: &str = "1,a,v,0,2,30,1,10
1,a,w,0,2,12,0,0
1,a,v,1,1,5,0,0
1,a,w,1,3,21,1,6
";

const B: &str = "1,b,v,0,2,37,1,14
1,b,w,0,2,3,0,0
1,b,v,1,2,12,0,0
1,b,w,1,2,14,1,8
";

const C: &str = "1,c,v,0,2,40,1,15
1,c,w,0,1,2,0,0
1,c,v,1,2,12,0,0
1,c,w,1,2,15,0,0
";

const TABLE: &str = "scope,flow,block,in,out,lost,delay,din,dout,ddelay
0,v,0,2,2,0,7,1,1,4
0,v,1,1,2,-1,-,0,0,0
0,w,0,2,2,0,-9,0,0,0
0,w,1,3,2,1,-,1,1,2
1,v,0,2,2,0,3,1,1,1
1,v,1,2,2,0,0,0,0,0
1,w,0,2,1,1,-,0,0,0
1,w,1,2,2,0,1,1,0,-
network,v,0,2,2,0,10,1,1,5
network,v,1,1,2,-1,-,0,0,0
network,w,0,2,1,1,-,0,0,0
network,w,1,3,2,1,-,1,0,-
";

// Takes the report with these rows.
fn take(
    alloc: Global,
    domain: &Domain,
    control: &mut Control,
    rows: &str,
) -> Result<Result<(), ControlError>, Fail>
    requires { IsControlOf domain.now control.old }
    ensures { OnOk result (IsControlOf domain.now control.new) }
{
    let text = format!(in alloc; "{REPORT_HEAD}{rows}")?;
    if text.len() > MAX_REPORT as usize {
        return Err(Fail::from("a text above the limit"));
    }
    let report = read_report(alloc, domain, text.as_bytes())?;
    if report.node as usize >= domain.nodes().len() {
        return Err(Fail::from("no node"));
    }
    Ok(control.accept(report.node, &report.cells))
}

// A report is taken once, in any order, and the first missing one is named.
#[test]
fn each_node_reports_once(rt: HostRuntime) -> Result<(), Fail> {
    let alloc = rt.alloc();
    let domain = network(alloc, "vw", "abc", "ab bc")?;
    let mut control = Control::new(alloc, &domain)?;
    let first_missing = Some(ControlError::MissingReport { node: 0 });
    let last_missing = Some(ControlError::MissingReport { node: 2 });
    let twice = Err(ControlError::ReportTwice { node: 1 });
    assert!(rt; take(alloc, &domain, &mut control, B)? == Ok(()));
    assert!(rt; control.finish().err() == first_missing);
    assert!(rt; take(alloc, &domain, &mut control, B)? == twice);
    assert!(rt; take(alloc, &domain, &mut control, A)? == Ok(()));
    assert!(rt; control.finish().err() == last_missing);
    assert!(rt; take(alloc, &domain, &mut control, C)? == Ok(()));
    let closed = control.finish()?;
    let mut out = MemSink::new(alloc, 4096, Vec::new(alloc))?;
    assert!(rt; write_loss(alloc, &domain, &closed, &mut out).is_ok());
    assert!(rt; out.bytes() == TABLE.as_bytes());
    assert!(rt; closed.rows() == 12);
    let row = closed.row(9);
    assert!(rt; (row.scope, row.lost) == (Scope::Network, -1));
    Ok(())
}
