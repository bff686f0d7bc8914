ghost use Rattle.std.specs.Prelude.{◌≡◌, ℕ};

// What has a code: `key` is the code, and `recoded` the same entry under another code. The laws make that exact: an entry
// under another code has that code, under its own code is itself, and keeps all else, so that one under two codes in turn
// is the one under the second.
pub trait Coded {
    ghost key: { Self → ℕ };

    ghost recoded: { ℕ → Self → Self };

    fn code(&self) -> u16
        ensures { result ≡ key self.now };

    fn set_code(&mut self, code: u16)
        ensures { self.new ≡ recoded code self.old };

    ghost under: { (c : ℕ) (e : Self) → key (recoded c e) ≡ c };

    ghost own: { (e : Self) → recoded (key e) e ≡ e };

    ghost last: { (b c : ℕ) (e : Self) → recoded c (recoded b e) ≡ recoded c e };
}
