// The kinds of belief together: pairs of pairs, proved over any three beliefs and called with tables, and calls that are run
// and compared with what they should return. It promises nothing to other crates; a further kind of belief needs no change here.
#![tactic(auto)]

ghost use Rattle.std.specs.Prelude.{◌≡◌, false};
ghost use Rattle.refusal.specs.Replies.{reply, and_then};
ghost use Rattle.belief.specs.Meaning.{heaviest_of};
ghost use Rattle.belief.specs.Calls.{replied};
ghost use Rattle.pair.specs.Pairs.{pair_made};

use belief::Belief;
use pair::Pair;
use refusal::Refusal;
use table::Table;

// The heaviest of an answer in a pair of a pair, made on the spot.
pub fn heaviest_of_three<A: Belief, B: Belief, C: Belief>(
    one: A,
    two: B,
    three: C,
    question: &[u8],
    answer: u8,
) -> Result<u64, Refusal>
    ensures { reply result ≡ and_then (pair_made (A.Belief.means one) (B.Belief.means two)) (λ m.
        and_then (pair_made m (C.Belief.means three)) (λ n.
        replied n question.now (heaviest_of n question.now answer))) }
{
    let pair = Pair::make(one, two)?;
    let nested = Pair::make(pair, three)?;
    nested.heaviest(question, answer)
}

// The letter of a pair of a pair of tables.
pub fn letter_of_three() -> u8
    ensures { result ≡ 80 }
{
    <Pair<Pair<Table, Table>, Table> as Belief>::LETTER
}

// Whether what memory is filled with is sound.
pub fn filler_is_sound() -> bool
    ensures { result ≡ false }
{
    let filler: Pair<Pair<Table, Table>, Table> = Pair::default();
    filler.sound()
}

#[cfg(test)]
mod tests {
    use super::*;
    use std::test::Fail;

    // The pair of the tables 1, 2 over field 0 and 1, 1, 2 over field 1.
    fn sample() -> Result<Pair<Table, Table>, Refusal> {
        let left = Table::make(0, 1, [1, 0, 0, 0], &[1, 2])?;
        let right = Table::make(1, 1, [0, 2, 0, 0], &[1, 1, 2])?;
        Pair::make(left, right)
    }

    // The number of the refusal, if it is one.
    fn refused(reply: Result<u64, Refusal>) -> Option<u8> {
        reply.err().map(|why| why.number())
    }

    #[test]
    fn letters(rt: HostRuntime) {
        assert_eq!(rt; <Table as Belief>::LETTER, b'T');
        assert_eq!(rt; <Pair<Table, Table> as Belief>::LETTER, b'P');
    }

    #[test]
    fn weighs(rt: HostRuntime) -> Result<(), Fail> {
        let Ok(pair) = sample() else {
            return Err(Fail::new("the pair is refused"));
        };
        assert_eq!(rt; pair.total(), 12);
        assert_eq!(rt; pair.peak(), 4);
        assert_eq!(rt; pair.mass(b"<f\x01c\x00\x02", 1).ok(), Some(6));
        assert_eq!(rt; pair.heaviest(b"<f\x01c\x00\x02", 1).ok(), Some(2));
        Ok(())
    }

    // Field 0 < field 1 is a question of neither side, but one of a table over both fields.
    #[test]
    fn across(rt: HostRuntime) -> Result<(), Fail> {
        let Ok(pair) = sample() else {
            return Err(Fail::new("the pair is refused"));
        };
        assert_eq!(rt; refused(pair.mass(b"<f\x00f\x01", 1)), Some(12));
        let Ok(table) = Table::make(0, 2, [1, 2, 0, 0], &[1, 1, 2, 2, 2, 4]) else {
            return Err(Fail::new("the table is refused"));
        };
        assert_eq!(rt; table.mass(b"<f\x00f\x01", 1).ok(), Some(7));
        Ok(())
    }
}
