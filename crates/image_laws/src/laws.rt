//! The laws of sound images. Each function has an empty body, and its contract is the law, over every checked geometry and
//! hashes that never change.
ghost use Rattle.image_laws.specs.Laws.{AnswersAreHolders, ImageKeeps, OpeningIsQuiet, QuietIsSound, SoundIsOneMap};

/// In sound words at most one slot answers for a key, and one does exactly where the map of the walk's live slots has the key,
/// with its value.
pub fn law_sound_is_one_map()
    ensures { SoundIsOneMap }
{}

/// The words after a legal log, where they are quiet, are sound, and the map of their live slots is that of all changes of the
/// log.
pub fn law_quiet_is_sound()
    ensures { QuietIsSound }
{}

/// The slots that answer in the words after a legal log are the holders of the log, whether they are quiet or not.
pub fn law_answers_are_holders()
    ensures { AnswersAreHolders }
{}

/// The words of each node below its next word, and the opening's words else, are all words of a legal log.
pub fn law_image_keeps()
    ensures { ImageKeeps }
{}

/// The opening words are quiet.
pub fn law_opening_is_quiet()
    ensures { OpeningIsQuiet }
{}
