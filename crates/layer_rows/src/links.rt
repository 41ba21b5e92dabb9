//! Links, by a table whose answers were found by hand: where the nets of a project lead from a port. The answers of `link` are tried over `run`.

use crate::calls::{cut, number};
use crate::types::project_of;
use link_check::{LeafPort, check};
use std::alloc::Global;
use tydi_base::{List, Memory, Name, Path, TryClone, emit};

/// A design, and a port by the number of its top and its path: the port to which the nets lead.
pub(crate) const SINKS: &[(&str, &str, &str)] = &[
    // Into a hierarchy.
    (
        "namespace n { type y = Stream(data: Bits(1)); streamlet leaf = (p: in y, q: out y); streamlet mid = (p: in y, q: out y); streamlet top = (p: in y, q: out y); impl b of mid = { x = leaf; p -- x.p; x.q -- q; }; impl a of top = { m = mid; n = mid; p -- m.p; m.q -- n.p; n.q -- q; }; }",
        "2 p",
        "m.x.p",
    ),
    // From one instance to another.
    (
        "namespace n { type y = Stream(data: Bits(1)); streamlet leaf = (p: in y, q: out y); streamlet mid = (p: in y, q: out y); streamlet top = (p: in y, q: out y); impl b of mid = { x = leaf; p -- x.p; x.q -- q; }; impl a of top = { m = mid; n = mid; p -- m.p; m.q -- n.p; n.q -- q; }; }",
        "2 m.x.q",
        "n.x.p",
    ),
    // Out of it.
    (
        "namespace n { type y = Stream(data: Bits(1)); streamlet leaf = (p: in y, q: out y); streamlet mid = (p: in y, q: out y); streamlet top = (p: in y, q: out y); impl b of mid = { x = leaf; p -- x.p; x.q -- q; }; impl a of top = { m = mid; n = mid; p -- m.p; m.q -- n.p; n.q -- q; }; }",
        "2 n.x.q",
        "q",
    ),
    // A sink is no source.
    (
        "namespace n { type y = Stream(data: Bits(1)); streamlet leaf = (p: in y, q: out y); streamlet mid = (p: in y, q: out y); streamlet top = (p: in y, q: out y); impl b of mid = { x = leaf; p -- x.p; x.q -- q; }; impl a of top = { m = mid; n = mid; p -- m.p; m.q -- n.p; n.q -- q; }; }",
        "2 q",
        "none",
    ),
    // A port of an instance that has instances and links is no leaf.
    (
        "namespace n { type y = Stream(data: Bits(1)); streamlet leaf = (p: in y, q: out y); streamlet mid = (p: in y, q: out y); streamlet top = (p: in y, q: out y); impl b of mid = { x = leaf; p -- x.p; x.q -- q; }; impl a of top = { m = mid; n = mid; p -- m.p; m.q -- n.p; n.q -- q; }; }",
        "2 m.p",
        "none",
    ),
    // A port that is not there.
    (
        "namespace n { type y = Stream(data: Bits(1)); streamlet leaf = (p: in y, q: out y); streamlet mid = (p: in y, q: out y); streamlet top = (p: in y, q: out y); impl b of mid = { x = leaf; p -- x.p; x.q -- q; }; impl a of top = { m = mid; n = mid; p -- m.p; m.q -- n.p; n.q -- q; }; }",
        "2 r",
        "none",
    ),
    // An instance that is not there.
    (
        "namespace n { type y = Stream(data: Bits(1)); streamlet leaf = (p: in y, q: out y); streamlet mid = (p: in y, q: out y); streamlet top = (p: in y, q: out y); impl b of mid = { x = leaf; p -- x.p; x.q -- q; }; impl a of top = { m = mid; n = mid; p -- m.p; m.q -- n.p; n.q -- q; }; }",
        "2 k.p",
        "none",
    ),
    // A top without instances and links.
    (
        "namespace n { type y = Stream(data: Bits(1)); streamlet leaf = (p: in y, q: out y); streamlet mid = (p: in y, q: out y); streamlet top = (p: in y, q: out y); impl b of mid = { x = leaf; p -- x.p; x.q -- q; }; impl a of top = { m = mid; n = mid; p -- m.p; m.q -- n.p; n.q -- q; }; }",
        "0 p",
        "none",
    ),
    // A top further down.
    (
        "namespace n { type y = Stream(data: Bits(1)); streamlet leaf = (p: in y, q: out y); streamlet mid = (p: in y, q: out y); streamlet top = (p: in y, q: out y); impl b of mid = { x = leaf; p -- x.p; x.q -- q; }; impl a of top = { m = mid; n = mid; p -- m.p; m.q -- n.p; n.q -- q; }; }",
        "1 p",
        "x.p",
    ),
    // No such top.
    (
        "namespace n { type y = Stream(data: Bits(1)); streamlet leaf = (p: in y, q: out y); streamlet mid = (p: in y, q: out y); streamlet top = (p: in y, q: out y); impl b of mid = { x = leaf; p -- x.p; x.q -- q; }; impl a of top = { m = mid; n = mid; p -- m.p; m.q -- n.p; n.q -- q; }; }",
        "7 p",
        "none",
    ),
];

/// The port to which the nets of a project lead from a port, by the number of its top and its path. `none` where they lead from none.
pub(crate) fn sink(
    alloc: Global,
    text: &str,
    leaf: &str,
    out: &mut List<u8>,
) -> Result<(), Memory> {
    let project = project_of(alloc, text)?;
    let Ok(nets) = check(alloc, &project) else {
        return Err(Memory);
    };
    match nets.sink_of(alloc, &project, &leaf_of(alloc, leaf)?)? {
        Some(sink) => write_leaf(&sink, out),
        None => emit!(out; "none"),
    }
}

fn leaf_of(alloc: Global, leaf: &str) -> Result<LeafPort, Memory> {
    let (top, path) = cut(leaf);
    let Some(path) = Path::read(alloc, path.as_bytes(), false)? else {
        return Err(Memory);
    };
    let [instances @ .., port] = path.names() else {
        return Err(Memory);
    };
    Ok(LeafPort {
        top: (number(top) % 65_536) as u32,
        instances: names_of(alloc, instances)?,
        port: port.try_clone(alloc)?,
    })
}

fn names_of(alloc: Global, names: &[Name]) -> Result<List<Name>, Memory> {
    let mut list = List::new(alloc);
    'names: for name in names {
        list.push(name.try_clone(alloc)?)?;
    }
    Ok(list)
}

fn write_leaf(leaf: &LeafPort, out: &mut List<u8>) -> Result<(), Memory> {
    'instances: for name in leaf.instances.as_slice() {
        emit!(out; name, ".")?;
    }
    emit!(out; &leaf.port)
}
