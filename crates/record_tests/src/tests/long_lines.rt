//! Lines that come in many pieces, and after which room is given back.
use super::{LIMIT, Stream, record_of};
use std::alloc::Global;
use std::process::Abort;

// Adds an array of so many ones. Its record has the line as document.
fn add_ones(rt: &impl Abort, alloc: Global, lines: &mut Stream, items: usize) {
    let mut line = String::from_str(alloc, "[1").expect(rt, "memory");
    for _ in 1..items {
        line.push_str(",1").expect(rt, "memory");
    }
    line.push(']').expect(rt, "memory");
    lines.add(rt, 0, line.as_bytes(), &record_of(rt, alloc, &line));
}

// The first line has more nodes than a tape that is kept may have, and the second more positions than are kept. The last one is
// read with what is left of the room.
#[test]
fn long_lines(rt: HostRuntime) {
    let alloc = rt.alloc();
    let mut lines = Stream::new(alloc);
    for items in &[70_000, 600_000, 1] {
        add_ones(&rt, alloc, &mut lines, *items);
    }
    lines.check(&rt, alloc, LIMIT, 65536);
    lines.check_reloads(&rt, alloc, LIMIT);
}
