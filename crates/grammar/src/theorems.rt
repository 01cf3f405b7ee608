// The theorems, each asked for by the contract of a function that does nothing else.
ghost use Rattle.grammar.specs.Beginnings.{RefusedIsDead, TextsLiveAsTokens, UnrefusedIsLive};
ghost use Rattle.grammar.specs.Dues.{MachineTellsDue};
ghost use Rattle.grammar.specs.Examples.{ExamplesHold};
ghost use Rattle.grammar.specs.Machine.{MachineFindsAll, MachineFindsOnlyLawful};
ghost use Rattle.grammar.specs.Neighbours.{NeighboursDecided, TreesDecideSo};
ghost use Rattle.grammar.specs.Reading.{AtMostOneBracketedTree, AtMostOneTree, SpacedTokensRead};
ghost use Rattle.grammar.specs.Refusals.{OneAnswer, UnmatchedIsUnmatched};
ghost use Rattle.grammar.specs.Verdicts.{OneVerdict};
ghost use Rattle.grammar.specs.Writing.{OneFewest, WritableIsReadable, WritesFewest};

// Of two neighbouring operators the one with the smaller priority takes the operand between them, and
// between equals their types decide.
pub fn neighbours_decided()
    ensures { NeighboursDecided }
{}

// Every lawful bracketed tree decides so between its neighbours.
pub fn trees_decide_so()
    ensures { TreesDecideSo }
{}

// The reading machine finds every lawful bracketed tree from its tokens.
pub fn machine_finds_all()
    ensures { MachineFindsAll }
{}

// What it finds from well-formed tokens is lawful, and has just those tokens.
pub fn machine_finds_only_lawful()
    ensures { MachineFindsOnlyLawful }
{}

// Tokens have at most one lawful bracketed tree.
pub fn at_most_one_bracketed_tree()
    ensures { AtMostOneBracketedTree }
{}

// A text reads as at most one tree.
pub fn at_most_one_tree()
    ensures { AtMostOneTree }
{}

// Tokens that read are well formed, and their spaced text has them and reads.
pub fn spaced_tokens_read()
    ensures { SpacedTokensRead }
{}

// Some text that begins with these tokens reads exactly if some list of tokens does.
pub fn texts_live_as_tokens()
    ensures { TextsLiveAsTokens }
{}

// Where the machine has refused, no text that begins so reads.
pub fn refused_is_dead()
    ensures { RefusedIsDead }
{}

// Where it has not, some text that begins so reads.
pub fn unrefused_is_live()
    ensures { UnrefusedIsLive }
{}

// Where the machine has not refused, its state tells what is due.
pub fn machine_tells_due()
    ensures { MachineTellsDue }
{}

// A text reads as a tree, or fails at one token, or fails at its end, and only one of these.
pub fn one_verdict()
    ensures { OneVerdict }
{}

// A text has one answer: its tree, or one fault at one place.
pub fn one_answer()
    ensures { OneAnswer }
{}

// A bracket fault is told exactly where a bracket has no partner.
pub fn unmatched_is_unmatched()
    ensures { UnmatchedIsUnmatched }
{}

// What the writing rule writes for a tree reads as that tree, with the fewest pairs of brackets.
pub fn writes_fewest()
    ensures { WritesFewest }
{}

// The fewest pairs for a tree are one number.
pub fn one_fewest()
    ensures { OneFewest }
{}

// A tree can be written exactly if some text reads as it.
pub fn writable_is_readable()
    ensures { WritableIsReadable }
{}

// The worked examples of reading, refusing and writing hold.
pub fn examples_hold()
    ensures { ExamplesHold }
{}
