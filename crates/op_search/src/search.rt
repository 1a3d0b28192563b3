//! The machine.

ghost use Rattle.std.specs.Prelude.{◌≡◌, ◌<◌, ◌^◌, IsSome, IfSome, Some, ℕ, Option, option_map};
ghost use Rattle.verbs.specs.Programs.{next_act, outcome_of, mapped, Within};
ghost use Rattle.pass_text.specs.declared.job.PassMode.TheVariants.{Look};
ghost use Rattle.pass_text.specs.Bound.{pass_verbs};
ghost use Rattle.scan_pass.specs.Rest.{pass_rest};
ghost use Rattle.scan_pass.specs.Ends.{has_ended};
ghost use Rattle.op_search.specs.declared.end.SearchEnd.{SearchEnd};
ghost use Rattle.op_search.specs.Text.{found_by, found, search};
ghost use Rattle.op_search.specs.Rest.{IsBegun, search_rest};
ghost use Rattle.op_search.specs.Law.{IsSafeSearch};

use crate::end::{SearchEnd, SearchOutcome};
use kv_block::Key;
use scan_pass::{Job, Pass, PassEnd, Passed};
use verb_log::Verb;
use verbs::Machine;

/// The search of a key. `start` begins it; it then does the verb that `next` tells and takes its answer by `feed`, until
/// `next` is None.
#[derive(Clone, Copy, Debug)]
pub struct SearchOp {
    pub(crate) pass: Pass,
}

// What a look that ended so answers.
fn found_by(end: PassEnd) -> SearchOutcome
    ensures { result ≡ found_by end }
{
    match end {
        PassEnd::Held(held) => SearchOutcome::Found(held),
        PassEnd::Clear | PassEnd::Gone | PassEnd::Spent => SearchOutcome::Missing,
    }
}

// What a search tells of its look.
fn found(passed: &Passed) -> SearchEnd
    ensures { result ≡ found passed.now }
{
    SearchEnd {
        outcome: found_by(passed.end),
        table: passed.table,
    }
}

/// How a search ends by its look. None exactly until it has ended.
#[tactic(auto, using(verbs::proofs::Progs::mappeds))]
pub fn search_end(look: &Pass) -> Option<SearchEnd>
    ensures value { result ≡ outcome_of (mapped found (pass_rest look.now)) }
    ensures low { IfSome result (λ end. end.table < 2 ^ 46) }
{
    match look.passed() {
        Some(passed) => {
            let _table = look.table();
            Some(found(&passed))
        }
        None => None,
    }
}

impl SearchOp {
    /// A search by this pass, which was started in mode Look and not yet fed. It means the text of the search, and ends
    /// within P verbs whatever is answered. It has no refusal. On each legal log on which the look may begin it is safe,
    /// whatever others add between its verbs: it makes no entry, and the blocks that it reads are published. Found: the word
    /// was the key's holder at a position of the search, with the value. Missing: the key was looked for in vain
    /// (docs/LAWS.md, "What a search shows").
    pub fn start(pass: Pass) -> SearchOp
        requires look { pass.task.job.mode ≡ Look }
        requires begun { (entry : Option ℕ) × IsBegun pass entry }
        ensures look { search_rest result ≡ mapped found (pass_rest pass) }
        ensures rest { (entry : Option ℕ) → IsBegun pass entry → search_rest result ≡ search pass.task.job entry }
        ensures job { result.pass.task.job ≡ pass.task.job }
        ensures within { Within (pass_verbs pass.task.job) (search_rest result) }
        ensures waits { IsSome (next_act (search_rest result)) }
        ensures safe { (entry : Option ℕ) → IsBegun pass entry → IsSafeSearch pass.task.job entry (search_rest result) }
    {
        SearchOp { pass }
    }

    /// How many counted swaps were lost: none, since a search has no swap.
    pub fn lost(&self) -> u32
        ensures { result ≡ 0 }
    {
        0
    }

    /// The table where the look ended; before that, the one that it searched last.
    pub fn table(&self) -> u64
        ensures table { result ≡ self.now.pass.scan.table }
        ensures ended { (e : SearchEnd) → outcome_of (search_rest self.now) ≡ Some e → e.table ≡ result }
        ensures low { result < 2 ^ 46 }
    {
        self.pass.table()
    }

    /// What the search answers. None exactly while `next` is Some. `outcome` of `Machine` tells with it the table.
    pub fn outcome(&self) -> Option<SearchOutcome>
        ensures { result ≡ option_map (λ end. end.outcome) (outcome_of (search_rest self.now)) }
    {
        match Machine::outcome(self) {
            Some(end) => Some(end.outcome),
            None => None,
        }
    }

    /// Whether the search has ended.
    #[inline(always)]
    pub fn has_ended(&self) -> bool
        ensures { result ≡ has_ended self.now.pass.at }
    {
        self.pass.has_ended()
    }
}

impl Machine for SearchOp {
    ghost use Rattle.pass_text.specs.declared.job.Job.{Job};
    ghost use Rattle.op_search.specs.Rest.{search_rest};

    type Outcome = SearchEnd;

    ghost Kept = { Job };

    ghost kept = { λ m. m.pass.task.job };

    ghost rest = { search_rest };

    #[inline(always)]
    #[tactic(auto, using(verbs::proofs::Progs::mappeds))]
    fn next(&self) -> Option<Verb> {
        self.pass.next()
    }

    #[tactic(auto, using(verbs::proofs::Progs::mappeds))]
    fn block(&self) -> Option<u64> {
        self.pass.block()
    }

    #[inline(always)]
    #[tactic(auto, using(verbs::proofs::Progs::mappeds))]
    fn feed(&mut self, word: u64) {
        self.pass.feed(word);
    }

    #[tactic(auto, using(verbs::proofs::Progs::mappeds))]
    fn asks(&self) -> Option<Key> {
        self.pass.asks()
    }

    #[tactic(auto, using(verbs::proofs::Progs::mappeds))]
    fn told(&mut self, hash: u64) {
        self.pass.told(hash);
    }

    #[tactic(auto, using(verbs::proofs::Progs::mappeds))]
    fn outcome(&self) -> Option<SearchEnd> {
        search_end(&self.pass)
    }
}
