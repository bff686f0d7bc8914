ghost use Rattle.std.specs.Prelude.{◌≡◌, ℕ, true};
ghost use Rattle.refusal.specs.Replies.{reply, refused};
ghost use Rattle.belief.specs.Meaning.{Meaning, Laws, total_of, peak_of, whole_of, mass_of, heaviest_of};
ghost use Rattle.belief.specs.Calls.{carrying, replied, revising, leaving};

use refusal::Refusal;

// A kind of belief. Of a belief that is not sound only this is said: that it is not, the letter of its kind, and that a
// refused revising leaves it as it was; all else that it returns is free. That it is sound is a premise of each clause and no type,
// which callers would have to make first. First field, count and tops are asked for one by one, as the rules name them.
pub trait Belief: Copy {
    // The letter of the kind, as it stands in the audit.
    const LETTER: u8;

    ghost LETTER: { ℕ };

    ghost means: { Self → Meaning };

    // Whether the belief is sound.
    fn sound(&self) -> bool
        ensures { result ≡ (means self.now).sound };

    // The first field of the span.
    fn first(&self) -> u8
        ensures { (means self.now).sound ≡ true → result ≡ (means self.now).first };

    // How many fields the span has.
    fn count(&self) -> u8
        ensures { (means self.now).sound ≡ true → result ≡ (means self.now).count };

    // The greatest value of each field, 0 outside the span.
    fn tops(&self) -> [u8; 4]
        ensures { (means self.now).sound ≡ true → result ≡ (means self.now).tops };

    // The sum of all weights.
    fn total(&self) -> u64
        ensures { (means self.now).sound ≡ true → result ≡ total_of (means self.now) };

    // The greatest weight.
    fn peak(&self) -> u64
        ensures { (means self.now).sound ≡ true → result ≡ peak_of (means self.now) };

    // Whether every sheet of the span weighs at least 1.
    fn whole(&self) -> bool
        ensures { (means self.now).sound ≡ true → result ≡ whole_of (means self.now) };

    // The weight of a sheet: 0 if a byte of the span lies above its top; bytes outside the span are not looked at.
    fn weight(&self, sheet: [u8; 4]) -> u64
        ensures { (means self.now).sound ≡ true → result ≡ (means self.now).weight sheet };

    // Whether a question is carried; 9 or 10 for bytes that are none.
    fn carries(&self, question: &[u8]) -> Result<bool, Refusal>
        ensures { (means self.now).sound ≡ true → reply result ≡ carrying (means self.now) question.now };

    // The sum of the weights of the sheets that give the answer; 9, 10 or 12.
    fn mass(&self, question: &[u8], answer: u8) -> Result<u64, Refusal>
        ensures { (means self.now).sound ≡ true →
            reply result ≡ replied (means self.now) question.now (mass_of (means self.now) question.now answer) };

    // The greatest of those weights, 0 if there is none; 9, 10 or 12.
    fn heaviest(&self, question: &[u8], answer: u8) -> Result<u64, Refusal>
        ensures { (means self.now).sound ≡ true →
            reply result ≡ replied (means self.now) question.now (heaviest_of (means self.now) question.now answer) };

    // Sheets that give the answer keep their weight, all others get 0; 9, 10, 12 or 13.
    fn revise(&mut self, question: &[u8], answer: u8) -> Result<(), Refusal>
        ensures replies { (means self.old).sound ≡ true → reply result ≡ revising (means self.old) question.now answer }
        ensures leaves { (means self.old).sound ≡ true →
            means self.new ≡ leaving result (means self.old) question.now answer }
        ensures keeps { refused result ≡ true → self.new ≡ self.old };

    ghost laws: { (b : Self) → (means b).sound ≡ true → Laws (means b) };
}
