//! Laws about the words, which hold of the definitions alone. Nothing here runs.

ghost use Rattle.acq_words.specs.Laws.{ExampleIsPlain, ListsAreParsed, PlainListsAreTaken};
ghost use Rattle.acq_words.specs.Laws.{PlainListsReadOneWay};

/// Two words and then options in any order, each written in one of two ways, are taken by `clap`.
pub fn lists_are_parsed()
    ensures { ListsAreParsed }
{}

/// A plain list is taken, and asks for what it reads as.
pub fn plain_lists_are_taken()
    ensures { PlainListsAreTaken }
{}

/// The words of a plain list can be read in one way only.
pub fn plain_lists_read_one_way()
    ensures { PlainListsReadOneWay }
{}

/// An example: `:memory: try --plan=scopes --budget 5` is a plain list.
pub fn example_is_plain()
    ensures { ExampleIsPlain }
{}
