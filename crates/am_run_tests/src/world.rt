// `audit` over the captures that a world gives.
use crate::runs::{Fails, files_of, run_over, wants};
use am_domain::{Domain, read_domain};
use am_samples::TWO;
use am_world::{Event, World, capture_of, check_world};
use std::alloc::{AllocError, Global};
use std::test::Fail;

// Two packets are sent. The first, with the delay bit, takes a fifth of a second, and the second is lost.
const DROPPED: &[u8] = b"scope,flow,block,in,out,lost,delay,din,dout,ddelay
0,voice,0,2,1,1,-,1,1,200000000
0,voice,1,0,0,0,0,0,0,0
0,voice,2,0,0,0,0,0,0,0
network,voice,0,2,1,1,-,1,1,200000000
network,voice,1,0,0,0,0,0,0,0
network,voice,2,0,0,0,0,0,0,0
";

// The capture that a point takes of a world without a breach.
fn taken(
    alloc: Global,
    domain: &Domain,
    world: &World,
    node: u32,
) -> Result<Option<Vec<u8>>, AllocError> {
    if domain.nodes().len() <= node as usize || check_world(alloc, domain, world)?.is_some() {
        return Ok(None);
    }
    Ok(Some(capture_of(alloc, domain, world, node)?))
}

// A packet of the one flow is sent at the first point, whose clock is right.
fn sent(packet: u64, time: u64, delay: bool) -> Event {
    Event::Send {
        packet,
        flow: 0,
        node: 0,
        time,
        reading: time,
        delay,
    }
}

#[test]
fn prints_what_a_world_drops(rt: HostRuntime) -> Result<(), Fail> {
    let alloc = rt.alloc();
    let arrival = 1_200_000_000;
    let world = World::of(vec![in alloc;
        sent(0, 1_000_000_000, true),
        sent(1, 2_000_000_000, false),
        Event::Hop {
            packet: 0,
            link: 0,
            time: arrival,
            reading: arrival
        },
        Event::Lost { packet: 1 },
    ]?);
    let Ok(domain) = read_domain(alloc, TWO.as_bytes()) else {
        return Err("a domain".into());
    };
    let up = taken(alloc, &domain, &world, 0)?.ok_or("a valid world")?;
    let down = taken(alloc, &domain, &world, 1)?.ok_or("a valid world")?;
    let named: [(&str, &[u8]); 3] = [
        ("two.toml", TWO.as_bytes()),
        ("u.pcap", &up),
        ("v.pcap", &down),
    ];
    let files = files_of(alloc, &named)?;
    let ran = run_over(alloc, "audit two.toml", files, Fails::Nothing)?;
    wants(
        &rt,
        &ran,
        (0, DROPPED, ""),
        "audit two.toml",
        Fails::Nothing,
    );
    Ok(())
}
