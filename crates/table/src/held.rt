ghost use Rattle.std.specs.Prelude.{◌≡◌, length};

use belief::Span;

// How many weights a table has room for.
pub const PLACES: usize = 1024;

// A weight for each sheet of a span, the last field moving fastest; the places after them are not looked at. An
// array of fixed size: a table asks for no memory, and is copied as a value.
#[derive(Clone, Copy)]
pub struct Table {
    pub(crate) span: Span,
    pub(crate) weights: [u32; PLACES],
    ghost four: { length span.tops ≡ 4 },
    ghost places: { length weights ≡ 1024 },
}
