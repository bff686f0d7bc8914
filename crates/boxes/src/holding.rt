// Boxes as a belief holds them.
ghost use Rattle.std.specs.Prelude.{◌≡◌, ◌≤◌, length};

use crate::lists::BoxList;
use belief::Span;

mod calls;
pub(crate) mod kind;
mod leaning;
pub(crate) mod making;

#[derive(Clone, Copy)]
pub struct Boxes {
    span: Span,
    kept: BoxList,
    ghost four: { length span.tops ≡ 4 },
    ghost few: { kept.len ≤ 64 },
}
