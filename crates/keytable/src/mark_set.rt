// A set of marks (specs/Marks.antt): a bit for each, in words of 64.
ghost use Rattle.std.specs.Prelude.{◌≡◌, ◌<◌, ℕ, true};
ghost use Rattle.keytable.specs.Marks.{mark_count, has_mark};

// How many words of 64 bits have a bit for each mark.
const WORDS: usize = 32;

#[derive(Clone, Copy)]
pub(crate) struct MarkSet {
    pub(crate) words: [u64; WORDS],
}

impl MarkSet {
    pub(crate) fn new() -> MarkSet {
        MarkSet { words: [0; WORDS] }
    }

    pub(crate) fn contains(&self, m: usize) -> bool
        requires { m < mark_count }
        ensures { result ≡ has_mark self.now.words m }
    {
        (self.words[m / 64] >> (m % 64)) % 2 == 1
    }

    #[tactic(auto, using(crate::proofs::Marks::has_own, crate::proofs::Marks::has_still))]
    pub(crate) fn insert(&mut self, m: usize)
        requires { m < mark_count }
        ensures own { has_mark self.new.words m ≡ true }
        ensures others { (k : ℕ) → has_mark self.old.words k ≡ true → has_mark self.new.words k ≡ true }
    {
        self.words[m / 64] |= 1 << (m % 64);
    }
}
