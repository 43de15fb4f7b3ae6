//! Laws of the definitions that the contracts cite: each function does nothing but call other laws, and its contract is the
//! law. [`descend`] is no law: it is stage two after its reservations, and its contract says how often it reads a position.
ghost use Rattle.sj_base.specs.Text.{text, pretty};
ghost use Rattle.sj_parse.specs.Laws.{FaultOrTree, PrintsNoFault};

pub use crate::containers::Frame;
pub use crate::stage_two::descend;
use sj_base::laws::printing_reads_back;

/// A text has a fault, or it is a document under the limit of levels, and never both.
pub fn fault_or_tree()
    ensures { FaultOrTree }
{}

/// The compact text and the indented text of a valid tree have no fault, if the tree nests no deeper than the limit and the
/// text has at most 4294967295 bytes. So the text of a document can be read again.
pub fn printed_texts()
    ensures compact { PrintsNoFault text }
    ensures indented { PrintsNoFault pretty }
{
    printing_reads_back();
}
