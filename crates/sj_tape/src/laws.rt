//! Laws of the definitions that contracts cite, and the look-up whose contract counts what it reads.
//!
//! Each law is the contract of a function that computes nothing: it does nothing, or calls other such functions. [`find`] is the
//! look-up.
ghost use Rattle.sj_tape.specs.Laws.{ChildrenByCounts, SeenMembers, ItemsByPlace, MembersByKey};
ghost use Rattle.sj_base.specs.Text.{text, pretty};
ghost use Rattle.sj_tape.specs.Laws.{OneListing, ListingBack, RepeatsAndKeep};
ghost use Rattle.sj_tape.specs.Laws.{TapesAreValid, ValuesAreValid, ArraysAreValid, ObjectsAreValid, ValuesPrintBack};

pub use crate::find::find;
use sj_base::laws::printing_reads_back;

/// Two trees with one listing are equal, in their repeated keys and the order of their members too.
pub fn one_listing()
    ensures { OneListing }
{}

/// The tree of a listing is the tree that was listed.
pub fn listing_back()
    ensures { ListingBack }
{}

/// The nodes that the counts find for a key or an index are the nodes of that child in the tree.
pub fn children_by_counts()
    ensures { ChildrenByCounts }
{}

/// Typed reads by key see the scalar of that child in the tree.
pub fn seen_members()
    ensures { SeenMembers }
{}

/// `get` of an array finds the item that `iter` returns at that index.
pub fn items_by_place()
    ensures { ItemsByPlace }
{}

/// `get` of an object finds the first member with that key that `iter` returns.
pub fn members_by_key()
    ensures { MembersByKey }
{}

/// The trees of tapes and views are valid: integers in range, decimal literals that are numbers, strings in UTF-8.
pub fn trees_of_views()
    ensures tapes { TapesAreValid }
    ensures values { ValuesAreValid }
    ensures arrays { ArraysAreValid }
    ensures objects { ObjectsAreValid }
{}

/// The texts that `encode` and `encode_pp` append spell the tree of the value.
pub fn texts_of_values()
    ensures compact { ValuesPrintBack text }
    ensures indented { ValuesPrintBack pretty }
{
    printing_reads_back();
}

/// A tree repeats no key exactly where keeping the first member of each key leaves it as it is.
pub fn repeats_and_keep()
    ensures { RepeatsAndKeep }
{}
