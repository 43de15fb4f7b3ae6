//! Laws of the definitions that contracts cite. Each function does nothing, and its contract is the law.
ghost use Rattle.sj_base.specs.Laws.{OneMeaning, PrintsBack, OneText, SpellsTrees, SpelledInUtf8, PrintsUtf8, OneLine, LaysOutLists, LaysOutObjects};
ghost use Rattle.sj_base.specs.Laws.{KeepsOnce, KeepsParts, KeepsPut, HoldsOfParts, HoldsOfLast, StaysWhenPut, StaysWhenDropped, StaysWhenPushed, StaysWhenPopped, KeptWithMember, ValidWithMember, ValidWhenKept};
ghost use Rattle.sj_base.specs.Laws.{DepthWhenKept, DepthOfParts, DepthWhenPut, DepthWithMember, DepthWhenDropped, DepthWhenPushed, DepthWhenPopped, AlikeToItself, AlikeBothWays, AlikeInTurn, AlikeByCount};
ghost use Rattle.sj_base.specs.Keep.{IsKept};
ghost use Rattle.sj_base.specs.Tree.{IsValidTree};
ghost use Rattle.sj_base.specs.Text.{text, pretty};

/// No bytes spell two trees.
pub fn one_meaning()
    ensures { OneMeaning }
{}

/// The compact text and the indented text of a valid tree spell that tree.
pub fn printing_reads_back()
    ensures compact { PrintsBack text }
    ensures indented { PrintsBack pretty }
{}

/// Two valid trees have the same compact text exactly if they are equal, members in the same order.
pub fn one_text()
    ensures { OneText }
{}

/// A tree that bytes spell is valid, and the bytes are UTF-8.
pub fn spelled()
    ensures tree { SpellsTrees }
    ensures utf8 { SpelledInUtf8 }
{}

/// Both texts of a valid tree are UTF-8, and the compact text has no byte below 0x20: it is one line.
pub fn printed_bytes()
    ensures compact { PrintsUtf8 text }
    ensures indented { PrintsUtf8 pretty }
    ensures one_line { OneLine }
{}

/// The pieces that a [`Layout`](crate::Layout) prints of a list or an object make up its text.
pub fn laid_out()
    ensures lists { LaysOutLists }
    ensures objects { LaysOutObjects }
{}

/// `keep` gives a kept tree, and commutes with paths: with the part that a path selects, if any, and with replacing it.
pub fn keep_commutes()
    ensures once { KeepsOnce }
    ensures parts { KeepsParts }
    ensures put { KeepsPut }
{}

/// The parts of a kept tree are kept. A kept tree stays kept after an edit, if what is put in is kept.
pub fn kept_edits()
    ensures parts { HoldsOfParts IsKept }
    ensures last { HoldsOfLast IsKept }
    ensures put { StaysWhenPut IsKept }
    ensures put_member { KeptWithMember }
    ensures dropped { StaysWhenDropped IsKept }
    ensures pushed { StaysWhenPushed IsKept }
    ensures popped { StaysWhenPopped IsKept }
{}

/// The parts of a valid tree are valid, and so is `keep` of it. A valid tree stays valid after an edit, if what is put in is
/// valid and a new key is UTF-8.
pub fn valid_edits()
    ensures kept { ValidWhenKept }
    ensures parts { HoldsOfParts IsValidTree }
    ensures last { HoldsOfLast IsValidTree }
    ensures put { StaysWhenPut IsValidTree }
    ensures put_member { ValidWithMember }
    ensures dropped { StaysWhenDropped IsValidTree }
    ensures pushed { StaysWhenPushed IsValidTree }
    ensures popped { StaysWhenPopped IsValidTree }
{}

/// Bounds on the depth of a part of a tree, and of a tree after `keep` and after each edit, in levels.
pub fn depth_bounds()
    ensures kept { DepthWhenKept }
    ensures parts { DepthOfParts }
    ensures put { DepthWhenPut }
    ensures put_member { DepthWithMember }
    ensures dropped { DepthWhenDropped }
    ensures pushed { DepthWhenPushed }
    ensures popped { DepthWhenPopped }
{}

/// `alike` is an equivalence on kept trees.
pub fn alike_equivalence()
    ensures reflexive { AlikeToItself }
    ensures symmetric { AlikeBothWays }
    ensures transitive { AlikeInTurn }
{}

/// The numbers of members and one pass over the members of the first tell whether two kept objects are alike.
pub fn alike_objects()
    ensures { AlikeByCount }
{}
