// A theorem, asked for by the contract of a function that does nothing else.
ghost use Rattle.writing.specs.Puts.{PutsAreTheLine};

// The bytes of a line's Puts are its digits, a tab, the text that the writing rule gives the tree, and a line feed.
pub fn puts_are_the_line()
    ensures { PutsAreTheLine }
{}
