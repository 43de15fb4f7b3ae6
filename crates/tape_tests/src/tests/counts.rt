//! Stage two by itself, after a scan and the reservation of its room.
use super::{expect_debug, expect_eq, expect_shown};
use sj_base::Reads;
use sj_parse::laws::{Frame, descend};
use sj_parse::{DescentFault, DescentKind};
use sj_scan::{PlainScan, Stage1};
use sj_tape::Node;
use std::alloc::Global;
use std::process::Abort;

// The number of nodes that are read of a text under a limit of levels. The reading is to end like this.
fn count_nodes(
    rt: &impl Abort,
    alloc: Global,
    text: &mut [u8],
    limit: usize,
    ended: Result<(), DescentFault>,
) -> usize {
    if text.len() > u32::MAX as usize {
        panic!(rt; "a long text");
    }
    let mut positions = Vec::new(alloc);
    PlainScan.scan(text, &mut positions).expect(rt, "positions");
    let mut nodes: Vec<Node<'_>> = Vec::with_capacity(alloc, positions.len()).expect(rt, "memory");
    let mut stack: Vec<Frame> = Vec::with_capacity(alloc, limit.min(positions.len())).expect(
        rt, "memory",
    );
    let mut places = Reads::new(&positions);
    let found = descend(text, &mut places, limit, &mut nodes, &mut stack);
    expect_eq(rt, found, ended);
    nodes.len()
}

#[test]
fn stage_two_alone(rt: HostRuntime) {
    let mut text = *b"[1,[2,3],4]";
    expect_eq(&rt, count_nodes(&rt, rt.alloc(), &mut text, 2, Ok(())), 6);
    let too_deep = DescentFault {
        kind: DescentKind::Syntax,
        index: 3,
        byte: b'[',
    };
    expect_shown(&rt, rt.alloc(), &too_deep, "DescentFault");
    count_nodes(&rt, rt.alloc(), &mut text, 1, Err(too_deep));
}

// Neither an item nor a place.
#[test]
fn reads_show_nothing(rt: HostRuntime) {
    let mut reads = Reads::new(&[7u32]);
    reads.at(0);
    expect_debug(&rt, rt.alloc(), &reads, "Reads { .. }");
}
