ghost use Rattle.std.specs.Prelude.{◌≡◌, ◌≤◌, true};
ghost use Rattle.refusal.specs.Replies.{reply, given, and_then};
ghost use Rattle.belief.specs.Meaning.{mass_of, heaviest_of};
ghost use Rattle.belief.specs.Calls.{carrying};
ghost use Rattle.question.specs.Expressions.{greatest};
ghost use Rattle.question.specs.Reading.{reading};
ghost use Rattle.cabinet.specs.Memory.{meant};
ghost use Rattle.cabinet.specs.Calls.{judging};

use crate::folders::Folder;
use belief::Belief;
use question::GREATEST;
use refusal::Refusal;

// The answer, the sheet's own, if the question may be answered with it: it is carried, the answer is possible, and no answer
// to it is too telling. Once the answers looked at have all the weight, no further one is possible. Both tests are kept up to
// the end of one pass: an answer without mass is the earlier refusal, and to ask for its mass first would walk the belief twice.
#[tactic(auto, using(crate::proofs::Left::from_first, crate::proofs::Left::from_next, crate::proofs::Judged::some_none), unfolding(history::specs::Judging::telling))]
pub(crate) fn judge<B: Belief>(
    folder: &Folder<B>,
    question: &[u8],
    answer: u8,
) -> Result<u8, Refusal>
    requires sound { (B.means folder.now.belief).sound ≡ true }
    requires small { answer ≤ greatest }
    ensures { reply result ≡ and_then (reading question.now) (λ e. judging (meant B.means folder.now) question.now answer) }
{
    if !folder.belief.carries(question)? {
        return Err(Refusal::NotCarried);
    }
    let mut left = folder.belief.total();
    let mut possible = false;
    let mut telling = false;
    for a in 0..=GREATEST {
        let (mass, heaviest) = weighed(&folder.belief, question, a, left)?;
        left -= mass;
        possible |= (a == answer) & (mass > 0);
        telling |= folder.threshold.is_exceeded_by(heaviest, mass);
    }
    if !possible {
        return Err(Refusal::NoMass);
    }
    if telling {
        return Err(Refusal::TooTelling);
    }
    Ok(answer)
}

// The mass of an answer to a question that is carried, and its heaviest sheet. Nothing is looked at where no weight is left
// for it, and no heaviest sheet is sought where the mass is 0. A pair, since its one caller takes it apart at once.
// That the belief is sound is asked for, since the belief may be one of memory that was handed in.
#[tactic(auto, using(belief::proofs::Sums::heaviest_mass))]
fn weighed<B: Belief>(
    belief: &B,
    question: &[u8],
    answer: u8,
    left: u64,
) -> Result<(u64, u64), Refusal>
    requires sound { (B.means belief.now).sound ≡ true }
    requires carried { carrying (B.means belief.now) question.now ≡ given true }
    requires rest { mass_of (B.means belief.now) question.now answer ≤ left }
    ensures { reply result ≡ given (mass_of (B.means belief.now) question.now answer, heaviest_of (B.means belief.now) question.now answer) }
{
    if left == 0 {
        return Ok((0, 0));
    }
    let mass = belief.mass(question, answer)?;
    if mass == 0 {
        return Ok((0, 0));
    }
    Ok((mass, belief.heaviest(question, answer)?))
}
