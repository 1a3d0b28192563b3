//! The steps of a naming. Each changes what the naming remembers in place, and answers where it stands then: `rest` says
//! that what is left is what the text says there, `fits` what is known there.

ghost use Rattle.std.specs.Prelude.{nat_lt, ◌≡◌, ◌==◌, if◌then◌else◌, ◌+◌, ◌<◌, ◌≤◌, ◌*◌, ◌^◌, suc, IsSome};
ghost use Rattle.verb_log.specs.Decoded.{birth};
ghost use Rattle.verbs.specs.Programs.{next_verb, after};
ghost use Rattle.directory.specs.declared.at.At.TheVariants.{Name};
ghost use Rattle.directory.specs.Text.{step, look, name_each, name_below, double, after_depth, old_depth};
ghost use Rattle.directory.specs.Rest.{goes_on, at_rest};
ghost use Rattle.directory.specs.AtFits.{AtFits, MayDouble, AreUpper, AreIndices};

use crate::at::At;
use crate::naming::Naming;
use crate::progress::Progress;
use slot_word::read_birth;

// The birth depth in a word, 0 where it packs no birth.
#[tactic(auto, unfolding(verb_log::specs::Decoded::birth))]
fn birth_depth(word: u64) -> u32
    ensures { result ≡ (birth word).depth }
{
    match read_birth(word) {
        Some(birth) => birth.depth,
        None => 0,
    }
}

impl At {
    /// The words of `left` indices are to be looked at, from `index` on.
    pub fn each(progress: &mut Progress, naming: &Naming) -> At
        requires { AreIndices naming.now progress.old.left progress.old.index }
        ensures rest { at_rest naming.now progress.new result ≡ name_each naming.now progress.old.depth progress.old.left progress.old.index }
        ensures fits { AtFits naming.now progress.new result }
    {
        if progress.left == 0 {
            return At::Done;
        }
        progress.left -= 1;
        At::Word
    }

    /// The word of the index has been looked at.
    pub fn onward(progress: &mut Progress, naming: &Naming) -> At
        requires { AreIndices naming.now (progress.old.left + 1) progress.old.index }
        ensures rest { at_rest naming.now progress.new result ≡ goes_on naming.now progress.old }
        ensures fits { AtFits naming.now progress.new result }
    {
        progress.index += 1 << naming.birth.depth;
        At::each(progress, naming)
    }

    /// The child is named below this global depth.
    pub fn below(progress: &mut Progress, naming: &Naming, global: u64) -> At
        ensures rest { at_rest naming.now progress.new result ≡ name_below naming.now global }
        ensures fits { AtFits naming.now progress.new result }
    {
        progress.depth = global.min(u64::from(naming.geometry.max_depth)) as u32;
        if progress.depth < naming.birth.depth {
            return At::Done;
        }
        progress.index = naming.birth.suffix % (1 << naming.birth.depth);
        progress.left = 1 << (progress.depth - naming.birth.depth);
        At::each(progress, naming)
    }

    /// The word of the index was read, or found by a lost swap.
    pub fn looked(progress: &mut Progress, naming: &Naming, birth_depth: u32) -> At
        requires { AreIndices naming.now (progress.old.left + 1) progress.old.index }
        ensures rest { at_rest naming.now progress.new result ≡ (if nat_lt birth_depth naming.now.birth.depth
            then at_rest naming.now progress.old Name else goes_on naming.now progress.old) }
        ensures fits { AtFits naming.now progress.new result }
    {
        if birth_depth < naming.birth.depth {
            At::Name
        } else {
            At::onward(progress, naming)
        }
    }

    /// The swap of the word found this word.
    pub fn named(progress: &mut Progress, naming: &Naming, found: u64) -> At
        requires { AreIndices naming.now (progress.old.left + 1) progress.old.index }
        ensures rest { at_rest naming.now progress.new result ≡ (if found == progress.old.word then goes_on naming.now progress.old
            else look naming.now progress.old.looks progress.old.index found (goes_on naming.now progress.old)) }
        ensures fits { AtFits naming.now progress.new result }
    {
        if found == progress.word || progress.looks == 0 {
            return At::onward(progress, naming);
        }
        progress.looks -= 1;
        progress.word = found;
        At::Birth
    }

    /// `left` upper words are to be set, from `index` on.
    pub fn upper(progress: &mut Progress, naming: &Naming) -> At
        requires may { MayDouble naming.now }
        requires upper { AreUpper naming.now progress.old.left progress.old.index }
        ensures rest { at_rest naming.now progress.new result ≡ double naming.now progress.old.left progress.old.index }
        ensures fits { AtFits naming.now progress.new result }
    {
        if progress.left == 0 {
            return At::Deepen;
        }
        progress.left -= 1;
        At::Lower
    }

    /// The global depth was read.
    pub fn begun(progress: &mut Progress, naming: &Naming, global: u64) -> At
        ensures rest { at_rest naming.now progress.new result ≡ after_depth naming.now global }
        ensures fits { AtFits naming.now progress.new result }
    {
        let greatest = u64::from(naming.geometry.max_depth);
        if global < greatest && global + 1 == u64::from(naming.birth.depth) {
            progress.index = 1 << (naming.birth.depth - 1);
            progress.left = progress.index;
            At::upper(progress, naming)
        } else {
            At::below(progress, naming, global)
        }
    }

    /// The swap of the global depth found this depth.
    pub fn deepened(progress: &mut Progress, naming: &Naming, found: u64) -> At
        requires { MayDouble naming.now }
        ensures rest { at_rest naming.now progress.new result ≡ name_below naming.now (if found == old_depth naming.now then old_depth naming.now + 1 else found) }
        ensures fits { AtFits naming.now progress.new result }
    {
        let old = u64::from(naming.birth.depth) - 1;
        let global = if found == old { old + 1 } else { found };
        At::below(progress, naming, global)
    }

    /// The verb was answered. What has ended stays.
    pub fn fed(progress: &mut Progress, naming: &Naming, at: At, word: u64) -> At
        requires fits { AtFits naming.now progress.old at }
        requires waits { IsSome (next_verb (at_rest naming.now progress.old at)) }
        ensures rest { at_rest naming.now progress.new result ≡ after (at_rest naming.now progress.old at) word }
        ensures fits { AtFits naming.now progress.new result }
    {
        match at {
            At::Depth => At::begun(progress, naming, word),
            At::Lower => {
                progress.word = word;
                At::Upper
            }
            At::Upper => {
                progress.index += 1;
                At::upper(progress, naming)
            }
            At::Deepen => At::deepened(progress, naming, word),
            At::Word => {
                progress.word = word;
                progress.looks = naming.birth.depth;
                At::Birth
            }
            At::Birth => At::looked(progress, naming, birth_depth(word)),
            At::Name => At::named(progress, naming, word),
            At::Done => At::Done,
        }
    }
}
