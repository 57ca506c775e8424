//! Laws of the definitions, as contracts of functions that do nothing.

ghost use Rattle.network.specs.Laws.{EachNetworkIsReadOrRefused, ReadNetworkIsNotRefused};
ghost use Rattle.network.specs.Laws.{TextTellsNetwork};

/// Networks with the same text are the same.
pub fn text_tells_network()
    ensures { TextTellsNetwork }
{}

/// No bytes are read as a network and refused.
pub fn read_is_not_refused()
    ensures { ReadNetworkIsNotRefused }
{}

/// Each list of bytes is read as a network, or is refused, and not for want of memory.
pub fn each_is_read_or_refused()
    ensures { EachNetworkIsReadOrRefused }
{}
