//! The look-up by key, which reads nodes one at a time.
ghost use Rattle.std.specs.Prelude.{◌≡◌, ◌*◌, ◌<◌, ◌≤◌, IfSome, length, option_map, slice_range};
ghost use Rattle.sj_base.specs.Containers.{members_len};
ghost use Rattle.sj_base.specs.Reads.{reads_items, reads_places};
ghost use Rattle.sj_base.specs.Tree.{Members};
ghost use Rattle.sj_tape.specs.Children.{member_nodes};
ghost use Rattle.sj_tape.specs.Counts.{ReadsAtMost};
ghost use Rattle.sj_tape.specs.Listing.{members_listing};
ghost use Rattle.sj_tape.specs.Nodes.{entries};

use crate::node::Node;
use sj_base::Reads;
use std::ops::Range;

/// Looks for the first member with this key. Returns the range of the indices of the nodes of its value, or `None` if no member
/// has the key.
///
/// The nodes are those of `len` members, such as the nodes beneath an object. Each member costs two reads at most, its key and the
/// first node of its value, whose count tells where the next member begins. No node is read twice.
#[inline]
pub fn find(len: usize, key: &str, nodes: &mut Reads<'_, Node<'_>>) -> Option<Range<usize>>
    requires { (ms : Members) × (entries (reads_items nodes.old) ≡ members_listing ms)
        × (members_len ms ≡ len) }
    ensures found { option_map (λ r. slice_range (reads_items nodes.old) r.start r.end) result
        ≡ member_nodes len (reads_items nodes.old) key.now }
    ensures within { IfSome result (λ r. (r.start < r.end) × (r.end ≤ length (reads_items nodes.old))) }
    ensures reads { ReadsAtMost (2 * len) (length (reads_items nodes.old))
        (reads_places nodes.old) (reads_places nodes.new) }
    ensures items { reads_items nodes.new ≡ reads_items nodes.old }
{
    let mut left = len;
    let mut at = 0;
    while left > 0 {
        let Node::String(text) = nodes.at(at)? else {
            return None;
        };
        let start = at + 1;
        let end = start + 1 + nodes.at(start)?.count();
        if *text == key {
            return Some(start..end);
        }
        at = end;
        left -= 1;
    }
    None
}
