// The theorems, each asked for by the contract of a function that does nothing else.
ghost use Rattle.rack.specs.Names.{WordsAreSpelt, NamesArePadded};
ghost use Rattle.rack.specs.Racks.{OneTreeLies, LiesConsecutively, LiesWherePut, SoundWherePut, LaterNodesDoNotMatter, ReadTreesAreProper};
ghost use Rattle.rack.specs.Sizes.{NoMoreNodesThanTokens};

// A word is spelt by the name that it makes, and a proper name is made by the word that it spells.
pub fn names_are_words()
    ensures words { WordsAreSpelt }
    ensures names { NamesArePadded }
{}

// Where all nodes up to a root are sound, exactly one tree lies there.
pub fn one_tree_lies()
    ensures { OneTreeLies }
{}

// The nodes of a tree that lies at a root are consecutive, in postorder, and end there.
pub fn lies_consecutively()
    ensures { LiesConsecutively }
{}

// A tree whose nodes were put down lies at the last of them, and they are sound if those before are.
pub fn lies_where_put()
    ensures lies { LiesWherePut }
    ensures sound { SoundWherePut }
{}

// Nodes from a place on do not matter to those below it.
pub fn later_nodes_do_not_matter()
    ensures { LaterNodesDoNotMatter }
{}

// What a text reads as, a rack can hold.
pub fn read_trees_are_proper()
    ensures { ReadTreesAreProper }
{}

// A tree has no more nodes than its text has tokens: 1,024 free nodes are enough for any expression within the limits.
pub fn no_more_nodes_than_tokens()
    ensures { NoMoreNodesThanTokens }
{}
