//! The reads of a posted look, in the order of posting: which of them are done, and their words.

ghost use Rattle.std.specs.Prelude.{◌≡◌, ◌≤◌, ◌<◌, length};
ghost use Rattle.batch_pass.specs.Waiting.{open_in};

/// The reads that were posted last, of which there are 137 at most.
#[derive(Clone, Copy, Debug)]
pub struct Outstanding {
    words: [u64; 137],
    done: [bool; 137],
    /// How many of them wait.
    pub left: u32,
    ghost few: { left ≤ 137 },
    ghost words_long: { length words ≡ 137 },
    ghost done_long: { length done ≡ 137 },
}

impl Outstanding {
    ghost use Rattle.std.specs.Prelude.{◌+◌, ℕ, List, Option, take, slice_index};
    ghost use Rattle.pass_text.specs.declared.passed.Passed.{Passed};
    ghost use Rattle.post_text.specs.Posts.{Posts, reads, post, completed};
    ghost use Rattle.batch_pass.specs.Waiting.{cells, opens, nth_open};

    /// No reads.
    pub fn new() -> Outstanding
        ensures { result.left ≡ 0 }
    {
        Outstanding {
            words: [0; 137],
            done: [false; 137],
            left: 0,
        }
    }

    /// So many reads are posted.
    pub fn open(&mut self, count: usize)
        requires { count ≤ 137 }
        ensures left { self.new.left ≡ count }
        ensures wait { open_in count self.new.done ≡ count }
        ensures post { (block : Option ℕ) (ats : List ℕ) (go_on : List ℕ → Posts Passed) → length ats ≡ count
            → reads block self.new.left (cells ats self.new.words self.new.done) go_on ≡ post block ats go_on }
    {
        for place in 0..count {
            self.done[place] = false;
        }
        self.left = count as u32;
    }

    /// The place, in the order of posting, of the read of this number among those that wait.
    #[tactic(auto, using(crate::proofs::Opens::finds))]
    pub fn place(&self, i: u32) -> usize
        requires { i < opens self.now.done }
        ensures place { result ≡ nth_open self.now.done i }
        ensures low { result < 137 }
    {
        let mut left = i;
        for (place, done) in self.done.iter().enumerate() {
            if !*done {
                if left == 0 {
                    return place;
                }
                left -= 1;
            }
        }
        unreachable!()
    }

    /// The read of this number among those that wait has its word.
    pub fn fill(&mut self, i: u32, word: u64)
        requires some { i < self.old.left }
        requires there { i < opens self.old.done }
        ensures left { self.new.left + 1 ≡ self.old.left }
        ensures wait { (n : ℕ) → self.old.left ≡ open_in n self.old.done → self.new.left ≡ open_in n self.new.done }
        ensures rest { (block : Option ℕ) (ats : List ℕ) (go_on : List ℕ → Posts Passed) → length ats ≤ 137 → self.old.left ≡ open_in (length ats) self.old.done
            → reads block self.new.left (cells ats self.new.words self.new.done) go_on ≡ completed (reads block self.old.left (cells ats self.old.words self.old.done) go_on) i word }
    {
        let place = self.place(i);
        self.words[place] = word;
        self.done[place] = true;
        self.left -= 1;
    }

    /// The word of the one read that was posted.
    pub fn word(&self) -> u64
        ensures { result ≡ slice_index (take 1 self.now.words) 0 }
    {
        self.words[0]
    }

    /// The words of so many reads, in the order of posting.
    pub fn words(&self, count: usize) -> &[u64]
        requires { count ≤ 137 }
        ensures words { result.now ≡ take count self.now.words }
        ensures long { length result.now ≡ count }
    {
        &self.words[..count]
    }
}
