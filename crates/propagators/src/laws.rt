//! Laws of arc consistency. They are claims alone: these functions do nothing.

ghost use Rattle.propagators.specs.Laws.{LargestIs, LargestIsOne, LargestTells, LargestAgain};

/// Taking unsupported values away comes to the largest arc-consistent family.
pub fn largest_is()
    ensures { LargestIs }
{}

/// Two that are the largest have the same values.
pub fn largest_is_one()
    ensures { LargestIsOne }
{}

/// There is an arc-consistent family of nonempty sets exactly where the largest one has no empty
/// set.
pub fn largest_tells()
    ensures { LargestTells }
{}

/// Where values are taken away from the largest, the new largest lies within what is left of the
/// old one.
pub fn largest_again()
    ensures { LargestAgain }
{}
