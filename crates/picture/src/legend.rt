//! What is the same in every picture: the style, the symbols and the legend.

use crate::figure::Figure;
use std::alloc::{AllocError, Allocator};

/// The style, and the symbols of glyphs.
pub(crate) const STYLE: &[u8] =
    b"<style>\ntext{font:11px monospace;fill:#111}\n.b{font-weight:bold}.g,.n{fill:#666}.n{text-anchor:end}.i{font-style:italic}.w{fill:#fff;font-weight:bold}.h{font-weight:bold;font-size:12px}\n.paper{fill:#fff}.band{fill:#fff;fill-opacity:.85;stroke:#999;stroke-dasharray:1 3}\n.lane{stroke:#999;fill:none}\n.free{fill:#fff;stroke:#555}\n.held{fill:#222;stroke:#222}\n.wrote{fill:#d9e6f5;stroke:#123a6b;stroke-width:1.5}\n.taken{fill:#fff;stroke:#123a6b;stroke-width:1.5}\n.inner{fill:#fff;fill-opacity:.7;stroke:#123a6b}\n.cancelled{fill:#fff;stroke:#123a6b;stroke-width:1.5;stroke-dasharray:1.5 2.5}\n.dropped{fill:url(#hatch);stroke:#a01818;stroke-width:1.5;stroke-dasharray:7 3}\n.trapped{fill:#fff;stroke:#111;stroke-width:3.5}\n.running{fill:#f2f2f2}.sides{fill:none;stroke:#555}\n.why{fill:none;marker-end:url(#tip);stroke:#a01818;stroke-width:1.6}.dot{fill:#a01818}\n.was{fill:none;stroke:#a01818;stroke-width:1.2}\n.s{fill:#111;stroke:#111}.o{fill:#fff;stroke:#111;stroke-width:1.3}.x{fill:none;stroke:#111;stroke-width:1.8}\n</style>\n<defs>\n<pattern id=\"hatch\" width=\"7\" height=\"7\" patternUnits=\"userSpaceOnUse\" patternTransform=\"rotate(45)\"><rect width=\"7\" height=\"7\" fill=\"#fff\"/><rect width=\"1\" height=\"7\" fill=\"#eccaca\"/></pattern>\n<marker id=\"tip\" markerWidth=\"9\" markerHeight=\"8\" refX=\"8\" refY=\"4\" orient=\"auto\" markerUnits=\"userSpaceOnUse\"><path d=\"M0,0L9,4L0,8z\" fill=\"#a01818\"/></marker>\n<circle id=\"load\" r=\"3.5\" class=\"o\"/>\n<circle id=\"store\" r=\"4\" class=\"s\"/>\n<path id=\"lock\" d=\"M0,-3.5L3.5,0L0,3.5L-3.5,0z\" class=\"o\"/>\n<path id=\"take\" d=\"M-4,-4H4V4H-4z\" class=\"s\"/>\n<g id=\"miss\"><path d=\"M-3.5,-3.5H3.5V3.5H-3.5z\" class=\"o\"/><path d=\"M-3.5,-3.5L3.5,3.5\" class=\"x\"/></g>\n<path id=\"give\" d=\"M0,-5L5,0L0,5L-5,0z\" class=\"s\"/>\n<path id=\"wait\" d=\"M0,-4V4\" class=\"x\"/>\n<path id=\"done\" d=\"M-5,0H5\" class=\"x\" stroke-width=\"3\"/>\n<path id=\"in\" d=\"M-5,3V-3H5\" class=\"x\"/>\n<g id=\"not\"><circle r=\"4\" class=\"o\"/><path d=\"M-3,3L3,-3\" class=\"x\"/></g>\n<path id=\"cross\" d=\"M-4,-4L4,4M-4,4L4,-4\" class=\"x\" stroke=\"#a01818\"/>\n<path id=\"trap\" d=\"M0,-5L5,4H-5z\" class=\"s\"/>\n<path id=\"print\" d=\"M-4,-2H4M-4,2H2\" class=\"x\"/>\n</defs>\n";

/// Adds a symbol of the legend, and what it means.
fn put_meaning<A: Allocator + Copy>(
    alloc: A,
    to: &mut Vec<Figure<A>, A>,
    name: &'static [u8],
    x: u64,
    meaning: &[u8],
) -> Result<(), AllocError> {
    to.push(Figure::Symbol { name, x, y: 36 })?;
    to.push(Figure::words(alloc, (x.wrapping_add(9), 40), b"", meaning)?)?;
    Ok(())
}

/// Adds a box of the legend, and what it means.
fn put_box<A: Allocator + Copy>(
    alloc: A,
    to: &mut Vec<Figure<A>, A>,
    class: &'static [u8],
    x: u64,
    meaning: &[u8],
) -> Result<(), AllocError> {
    to.push(Figure::rectangle((x, 49), (18, 11), class))?;
    to.push(Figure::words(alloc, (x.wrapping_add(24), 59), b"", meaning)?)?;
    Ok(())
}

/// Adds the legend.
pub(crate) fn put_legend<A: Allocator + Copy>(
    alloc: A,
    to: &mut Vec<Figure<A>, A>,
) -> Result<(), AllocError> {
    put_meaning(alloc, to, b"load", 18, b"load")?;
    put_meaning(alloc, to, b"store", 72, b"store")?;
    put_meaning(alloc, to, b"lock", 133, b"load lock")?;
    put_meaning(alloc, to, b"take", 222, b"lock taken")?;
    put_meaning(alloc, to, b"miss", 318, b"swap lost")?;
    put_meaning(alloc, to, b"give", 407, b"lock released")?;
    put_meaning(alloc, to, b"wait", 524, b"waits")?;
    put_meaning(alloc, to, b"print", 585, b"prints")?;
    put_box(alloc, to, b"wrote", 14, b"committed, wrote")?;
    put_box(alloc, to, b"taken", 168, b"read only")?;
    put_box(alloc, to, b"cancelled", 273, b"cancelled")?;
    put_box(alloc, to, b"dropped", 378, b"dropped")?;
    put_box(alloc, to, b"trapped", 469, b"trapped")?;
    put_box(alloc, to, b"running", 560, b"running")?;
    let of_locks =
        b"#3: third to take the lock and to change anything. after #3: as if just behind it.";
    to.push(Figure::words(alloc, (14, 78), b"", of_locks)?)?;
    let of_arrows =
        b"An arrow leads from a store to the load that found its value, and the attempt was dropped.";
    to.push(Figure::words(alloc, (14, 94), b"", of_arrows)?)?;
    Ok(())
}
