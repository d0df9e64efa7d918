//! Answers that no file leads to, since memory would have to run out.

use block::BlockFault;
use command_line::{Format, LineFault, Style, write_answer};
use commit::{NotCommitted, Refused};
use std::alloc::Global;

static WANTS: [NotCommitted; 4] = [
    NotCommitted::Refused(Refused::Memory),
    NotCommitted::Refused(Refused::Malformed(BlockFault::Memory)),
    NotCommitted::MemoryInCommit,
    NotCommitted::Stopped,
];

// Whether this is told as want of memory, and has no line.
fn is_without_line(alloc: Global, why: NotCommitted, format: Format) -> bool {
    let mut out = Vec::new(alloc);
    let style = Style {
        format,
        hashes: true,
    };
    write_answer(&mut out, 1, &Err(why), style) == Err(LineFault::Memory) && out.is_empty()
}

#[test]
fn want_of_memory_has_no_line(rt: HostRuntime) {
    for why in &WANTS {
        assert!(rt; is_without_line(rt.alloc(), *why, Format::Plain));
        assert!(rt; is_without_line(rt.alloc(), *why, Format::Json));
    }
}
