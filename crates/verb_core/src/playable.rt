//! What a world plays: machines of whole calls, of which several verbs may be outstanding.
use call_machine::ClientState;
use kv_block::Key;
use map_model::{Call, Reply};
use verb_log::Verb;

/// A call under way. A machine knows the verbs that are outstanding, and takes the answer to any one of them. It takes no
/// memory.
pub trait Playable: Sized {
    ghost use Rattle.std.specs.Prelude.{◌≡◌, ℕ, ◌<◌, ◌≤◌, List, length, Some, None, IsSome, is_some, is_none};
    ghost use Rattle.map_model.specs.Machine.{key_of};
    ghost use Rattle.call_texts.specs.State.{CallEnd, state_after};
    ghost use Rattle.world_texts.specs.Sorts.{Kind, chosen, onward};
    ghost use Rattle.world_texts.specs.Safety.{AreSafe};

    // What its machines mean.
    ghost kind: { Kind Self };

    /// A call at its beginning, of a client that keeps this, where its key has this hash.
    fn start(state: &ClientState, hash: u64, call: &Call) -> Self
        ensures { (h : List ℕ → ℕ) → hash ≡ h (key_of call.now) → kind.text h result ≡ kind.sort.begun h state.now call.now };

    /// Whether no hash is wanted. It makes no key.
    fn is_settled(&self) -> bool
        ensures { result ≡ is_none (kind.wants self.now) };

    /// The key whose hash is wanted. None exactly where no hash is.
    fn asks(&self) -> Option<Key>
        ensures { result ≡ kind.wants self.now };

    /// Takes the hash of the key that `asks` names.
    fn told(&mut self, hash: u64)
        requires { IsSome (kind.wants self.old) }
        ensures text { (h : List ℕ → ℕ) (key : List ℕ) → kind.wants self.old ≡ Some key → hash ≡ h key → kind.text h self.new ≡ kind.text h self.old }
        ensures questions { (h : List ℕ → ℕ) (key : List ℕ) → kind.wants self.old ≡ Some key → hash ≡ h key → kind.questions h self.new < kind.questions h self.old };

    /// The outstanding verb that the choice names. It needs that no hash is wanted and that a verb is outstanding.
    fn verb(&self, choice: u64) -> Verb
        requires settled { kind.wants self.now ≡ None }
        requires some { (h : List ℕ → ℕ) × (1 ≤ length (kind.sort.outstanding (kind.text h self.now))) }
        ensures { (h : List ℕ → ℕ) → Some result ≡ chosen (kind.sort.outstanding (kind.text h self.now)) choice };

    /// How many verbs are outstanding.
    fn outstanding(&self) -> u32
        requires settled { kind.wants self.now ≡ None }
        ensures { (h : List ℕ → ℕ) → result ≡ length (kind.sort.outstanding (kind.text h self.now)) };

    /// Takes the answer to the outstanding verb that the choice names.
    fn complete(&mut self, choice: u64, word: u64)
        requires settled { kind.wants self.old ≡ None }
        requires some { (h : List ℕ → ℕ) × (1 ≤ length (kind.sort.outstanding (kind.text h self.old))) }
        ensures { (h : List ℕ → ℕ) → kind.text h self.new ≡ onward kind.sort h (kind.text h self.old) choice word };

    /// Whether the call has answered.
    fn has_answered(&self) -> bool
        requires settled { kind.wants self.now ≡ None }
        ensures { (h : List ℕ → ℕ) → result ≡ is_some (kind.sort.answer (kind.text h self.now)) };

    /// What the call has answered.
    fn reply(&self) -> Reply
        requires settled { kind.wants self.now ≡ None }
        requires ended { (h : List ℕ → ℕ) × IsSome (kind.sort.answer (kind.text h self.now)) }
        ensures { (h : List ℕ → ℕ) (e : CallEnd) → kind.sort.answer (kind.text h self.now) ≡ Some e → result ≡ e.reply };

    /// Writes back what the answered call leaves of its client, which keeps what it kept at the start.
    fn finish(self, state: &mut ClientState)
        requires settled { kind.wants self ≡ None }
        requires ended { (h : List ℕ → ℕ) × IsSome (kind.sort.answer (kind.text h self)) }
        ensures { (h : List ℕ → ℕ) (e : CallEnd) → kind.sort.answer (kind.text h self) ≡ Some e → state.new ≡ state_after state.old e };

    /// These calls are safe.
    fn law_safe()
        ensures { AreSafe kind.sort };
}
