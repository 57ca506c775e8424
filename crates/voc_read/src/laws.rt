//! Laws of the definitions, as contracts of functions that do nothing.

ghost use Rattle.voc_read.specs.Laws.{EachVocabularyIsReadOrRefused, NoTwoLanguages};
ghost use Rattle.voc_read.specs.Laws.{ReadVocabularyIsNotRefused};

/// What describes a language isn't refused.
pub fn read_is_not_refused()
    ensures { ReadVocabularyIsNotRefused }
{}

/// No bytes describe two languages.
pub fn no_two_languages()
    ensures { NoTwoLanguages }
{}

/// Each list of bytes describes a language, or is refused, and not for want of memory.
pub fn each_is_read_or_refused()
    ensures { EachVocabularyIsReadOrRefused }
{}
