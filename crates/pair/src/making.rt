// How a pair is made.
ghost use Rattle.std.specs.Prelude.{◌≡◌, true, IfOk};
ghost use Rattle.refusal.specs.Replies.{reply};
ghost use Rattle.belief.specs.Calls.{seen};
ghost use Rattle.pair.specs.Pairs.{paired, sides, light, pair_made};

use crate::joint::Pair;
use belief::{Belief, MOST_TOTAL};
use refusal::Refusal;

impl<L: Belief, R: Belief> Pair<L, R> {
    // A pair of two beliefs, pairs too.
    pub fn make(left: L, right: R) -> Result<Pair<L, R>, Refusal>
        ensures makes { seen (λ p. paired (L.Belief.means p.left) (R.Belief.means p.right)) (reply result) ≡ pair_made (L.Belief.means left) (R.Belief.means right) }
        ensures sound { IfOk result (λ p. (paired (L.Belief.means p.left) (R.Belief.means p.right)).sound ≡ true) }
        ensures holds { IfOk result (λ p. (p.left ≡ left) × (p.right ≡ right)) }
    {
        if !good_sides(&left, &right) {
            return Err(Refusal::Sides);
        }
        if !is_light(&left, &right) {
            return Err(Refusal::Excess);
        }
        Ok(Pair { left, right })
    }
}

// Two defaults; where one of them is not sound, the pair is not.
impl<L: Belief + Default, R: Belief + Default> Default for Pair<L, R> {
    ghost is_default = { λ p. L.Default.is_default p.left × R.Default.is_default p.right };

    fn default() -> Pair<L, R> {
        Pair {
            left: L::default(),
            right: R::default(),
        }
    }
}

// Whether both sides are sound and the right begins where the left ends.
pub fn good_sides<L: Belief, R: Belief>(left: &L, right: &R) -> bool
    ensures { result ≡ sides (L.Belief.means left.now) (R.Belief.means right.now) }
{
    left.sound()
        && right.sound()
        && u16::from(right.first()) == u16::from(left.first()) + u16::from(left.count())
}

// Whether the total of good sides stays within its limit.
pub fn is_light<L: Belief, R: Belief>(left: &L, right: &R) -> bool
    ensures { sides (L.Belief.means left.now) (R.Belief.means right.now) ≡ true →
        result ≡ light (L.Belief.means left.now) (R.Belief.means right.now) }
{
    u128::from(left.total()) * u128::from(right.total()) <= u128::from(MOST_TOTAL)
}
