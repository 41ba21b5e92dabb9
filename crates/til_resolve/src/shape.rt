//! How large a type is.

ghost use Rattle.std.specs.Prelude.{◌≡◌, ◌+◌, min};
ghost use Rattle.til_resolve.specs.Shapes as spec;

/// The nodes of a type and its depth, each up to the first number that is too large, and whether it is a Stream.
#[derive(Clone, Copy)]
pub struct Shape {
    pub nodes: u32,
    pub depth: u32,
    pub stream: bool,
}

/// The shape of a type with none in it.
pub fn leaf() -> Shape
    ensures { result ≡ spec.leaf }
{
    Shape {
        nodes: 1,
        depth: 1,
        stream: false,
    }
}

/// The shape of no types.
pub fn nothing() -> Shape
    ensures { result ≡ spec.nothing }
{
    Shape {
        nodes: 0,
        depth: 0,
        stream: false,
    }
}

/// The shape of types beside one another.
pub fn beside(one: Shape, other: Shape) -> Shape
    ensures { result ≡ spec.beside one other }
{
    Shape {
        nodes: capped_sum(one.nodes, other.nodes, 65_537),
        depth: one.depth.max(other.depth),
        stream: false,
    }
}

/// The shape of a type around others.
pub fn around(inside: Shape, is_stream: bool) -> Shape
    ensures { result ≡ spec.around is_stream inside }
{
    Shape {
        nodes: capped_sum(inside.nodes, 1, 65_537),
        depth: capped_sum(inside.depth, 1, 65),
        stream: is_stream,
    }
}

// A sum, or the most that is counted.
fn capped_sum(one: u32, other: u32, most: u32) -> u32
    ensures { result ≡ min (one + other) most }
{
    one.saturating_add(other).min(most)
}
