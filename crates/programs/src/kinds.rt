use crate::noted::{Noted, Part, Unmade};
use crate::plans::{Leaning, Plan};
use boxes::Boxes;
use pair::Pair;
use refusal::Refusal;
use script::{LineError, Words};
use std::alloc::Global;
use table::Table;

// What a call made of a part, or that it could not.
fn at_part<T>(part: Part, made: Result<T, Refusal>) -> Result<T, Unmade> {
    made.map_err(|refusal| Unmade { part, refusal })
}

impl Noted for Table {
    type Plan = Plan<u32>;

    fn plan(heap: Global, words: &mut Words<'_>) -> Result<Plan<u32>, LineError> {
        Plan::read(heap, words, b"table")
    }

    fn made(plan: &Plan<u32>) -> Result<Table, Unmade> {
        let span = &plan.span;
        at_part(
            Part::Table,
            Table::make(span.first, span.count, span.tops, &plan.items),
        )
    }
}

impl Noted for Boxes {
    type Plan = Plan<Leaning>;

    fn plan(heap: Global, words: &mut Words<'_>) -> Result<Plan<Leaning>, LineError> {
        Plan::read(heap, words, b"boxes")
    }

    fn made(plan: &Plan<Leaning>) -> Result<Boxes, Unmade> {
        let span = &plan.span;
        let mut boxes = at_part(Part::Boxes, Boxes::fresh(span.first, span.count, span.tops))?;
        for lean in &plan.items {
            at_part(
                Part::Lean,
                boxes.lean(lean.lowest, lean.highest, u32::from(lean.factor)),
            )?;
        }
        Ok(boxes)
    }
}

// The plans of a pair's sides.
#[derive(Drop)]
pub(crate) struct Sides<L, R> {
    left: L,
    right: R,
}

impl<L: Noted, R: Noted> Noted for Pair<L, R> {
    type Plan = Sides<L::Plan, R::Plan>;

    // LEFT ; RIGHT
    fn plan(heap: Global, words: &mut Words<'_>) -> Result<Sides<L::Plan, R::Plan>, LineError> {
        let left = L::plan(heap, words)?;
        words.expect(b";")?;
        let right = R::plan(heap, words)?;
        Ok(Sides { left, right })
    }

    fn made(plan: &Sides<L::Plan, R::Plan>) -> Result<Pair<L, R>, Unmade> {
        at_part(
            Part::Pair,
            Pair::make(L::made(&plan.left)?, R::made(&plan.right)?),
        )
    }
}
