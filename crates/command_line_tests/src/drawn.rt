//! The last of the sample's blocks as a graph.

use crate::explained::sample;
use crate::explained::vectors::{graph, whole_graph};
use crate::files::MemoryFiles;
use crate::fixture::unlike;
use std::alloc::AllocError;

// Where the last block is refused, there is no graph.
#[test]
fn graphs_of_the_sample(rt: HostRuntime) -> Result<(), AllocError> {
    let rows = [
        ("explain --dot b0 b1 b2 b3 b4 b5 b6", 0, graph(), ""),
        (
            "explain --all b0 b1 b2 b3 b4 b5 b6 --dot",
            0,
            whole_graph(),
            "",
        ),
        (
            "explain --dot b0 b0",
            1,
            "refused 2 C2 want 1 got 0\n\
            known 0 same 725d8cb11580014661a0c47265ef000705bf00d7363a5cd5ad94b57a97757490 is 725d8cb11580014661a0c47265ef000705bf00d7363a5cd5ad94b57a97757490\n",
            "",
        ),
    ];
    let unlike = unlike(&rt, &MemoryFiles(&sample()), &rows)?;
    assert!(rt; unlike.is_none(), "{unlike:?}");
    Ok(())
}
