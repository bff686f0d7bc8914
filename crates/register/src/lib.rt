// One register for every kind of entry that has a code. It stands over a list of entries that is lent to it; code 0 means
// that a place is free. It promises that making frees every place and changes nothing but the codes, that a code is found
// at the first place that has it and nowhere else, and that putting an entry changes its own place alone. What is found is
// said in specs/Places.antt, once as a law and once by a definition. It rests on nothing.
#![tactic(auto)]

ghost use Rattle.std.specs.Prelude.{◌≡◌, ◌<◌, map, length, IfSome, slice_set};
ghost use Rattle.register.specs.Places.{Sought, Looked, Once, first, place, vacant};

mod coded;

pub use coded::Coded;

// A register over the entries. That it stays over the list that was lent is a clause, `lent`, of what changes it: a type
// says what holds of one value, and not of two. The field is public, since callers write to single entries in place.
#[derive(Drop)]
pub struct Register<'a, E> {
    pub entries: &'a mut [E],
}

impl<'a, E: Coded> Register<'a, E> {
    // The register over the entries, each of them free.
    #[tactic(auto, using(std::proofs::lemmas::List::Edits::map_over_more))]
    pub fn new(entries: &'a mut [E]) -> Self
        ensures freed { result.entries.now ≡ map (E.recoded 0) entries.old }
        ensures lent { result.entries.ghost_name ≡ entries.entry.ghost_name }
    {
        for entry in entries.iter_mut() {
            entry.set_code(0);
        }
        Register { entries }
    }

    // The place of the first entry that has the code; code 0 has none.
    pub fn place(&self, code: u16) -> Option<usize>
        ensures found { result ≡ place E.key code self.now.entries.now }
        ensures within { IfSome result (λ i. i < length self.now.entries.now) }
        ensures exact { Looked E.key code self.now.entries.now result }
    {
        if code == 0 {
            None
        } else {
            find(self.entries, code)
        }
    }

    // The first place that is free.
    pub fn free_place(&self) -> Option<usize>
        ensures found { result ≡ vacant E.key self.now.entries.now }
        ensures within { IfSome result (λ i. i < length self.now.entries.now) }
        ensures exact { Sought E.key 0 self.now.entries.now result }
        ensures once { Once E.key }
    {
        find(self.entries, 0)
    }

    // Puts an entry at a place, in place of the one there; past the end it changes nothing.
    pub fn put(&mut self, at: usize, entry: E)
    where
        E: Drop,
        ensures after { self.new.entries.now ≡ slice_set self.old.entries.now at entry }
        ensures lent { self.new.entries.ghost_name ≡ self.old.entries.ghost_name }
    {
        // not by `get_mut`: a proof knows nothing of the elements of a slice that was lent by it
        if at < self.entries.len() {
            self.entries[at] = entry;
        }
    }
}

// The place of the first entry that has the code.
fn find<E: Coded>(entries: &[E], code: u16) -> Option<usize>
    ensures found { result ≡ first E.key code entries.now }
    ensures within { IfSome result (λ i. i < length entries.now) }
    ensures exact { Sought E.key code entries.now result }
    ensures once { Once E.key }
{
    entries.iter().position(|entry| entry.code() == code)
}
