//! What is left of a text while its tokens are read.
ghost use Rattle.std.specs.Prelude.{◌≡◌, ◌+◌, ◌-◌, ◌≤◌, true, false, None, Some, MatchResult, IfErr, OnOk, length, drop, IsUtf8};
ghost use Rattle.sj_base.specs.NumberTests.{is_number};
ghost use Rattle.sj_parse.specs.Escapes.{stop, bad_escape};
ghost use Rattle.sj_parse.specs.Token.{word};
ghost use Rattle.sj_parse.specs.inside.NumberNode.{IsNumberNode};
ghost use Rattle.sj_parse.specs.inside.Step.{string_body, StopsAt};
ghost use Rattle.sj_parse.specs.inside.Tail.{Holds, IsCut};
ghost use Rattle.sj_parse.specs.inside.Trees.{decoded};

use crate::descent_fault::{DescentKind, Stop};
use crate::numbers::number;
use crate::scalars::{split_number, split_string};
use sj_tape::Node;
use std::mem;

/// A part of a text, up to its end. It has all tokens that aren't read yet, and may begin before them.
#[derive(Drop)]
pub(crate) struct Tail<'i> {
    /// The text from the place `from` on.
    pub(crate) rest: &'i mut [u8],
    /// Where the part begins in the text, in bytes.
    pub(crate) from: usize,
}

impl<'i> Tail<'i> {
    /// The text from `place` on.
    #[inline(always)]
    pub(crate) fn starting_at(&self, place: usize) -> &[u8]
        requires { (self.now.from ≤ place) × (place - self.now.from ≤ length self.now.rest.now) }
        ensures { result.now ≡ drop (place - self.now.from) self.now.rest.now }
    {
        &self.rest[place - self.from..]
    }

    /// The text of the string that begins at `place`. What is left begins at `next` then. After a fault nothing is left.
    #[inline(always)]
    pub(crate) fn take_string(&mut self, place: usize, next: usize) -> Result<&'i str, Stop>
        requires token { Holds place next self.old }
        requires body { IsUtf8 (string_body (drop (place - self.old.from + 1) self.old.rest.now)) }
        requires reaches { place + 1 + length (string_body (drop (place - self.old.from + 1) self.old.rest.now)) ≤ next }
        ensures text { MatchResult result
            (λ text. (bad_escape (place + 1) (string_body (drop (place - self.old.from + 1) self.old.rest.now)) ≡ None) × (text.now ≡ decoded (string_body (drop (place - self.old.from + 1) self.old.rest.now))))
            (λ s. bad_escape (place + 1) (string_body (drop (place - self.old.from + 1) self.old.rest.now)) ≡ Some s) }
        ensures stops { IfErr result (StopsAt place (place - self.old.from) self.old.rest.now) }
        ensures cut { OnOk result (IsCut next self.old self.new) }
    {
        let rest = mem::take(&mut self.rest);
        let (text, behind) = split_string(place, place - self.from, next - self.from, rest)?;
        self.rest = behind;
        self.from = next;
        Ok(text)
    }

    /// The node of the number that begins at `place`. What is left begins at `next` then. After a fault nothing is left.
    #[inline(always)]
    pub(crate) fn take_number(&mut self, place: usize, next: usize) -> Result<Node<'i>, Stop>
        requires token { Holds place next self.old }
        requires reaches { is_number (word (drop (place - self.old.from) self.old.rest.now)) ≡ true → place + length (word (drop (place - self.old.from) self.old.rest.now)) ≤ next }
        ensures number { MatchResult result
            (IsNumberNode (word (drop (place - self.old.from) self.old.rest.now)))
            (λ s. (is_number (word (drop (place - self.old.from) self.old.rest.now)) ≡ false) × (s ≡ stop DescentKind.InvalidNumber place)) }
        ensures cut { OnOk result (IsCut next self.old self.new) }
    {
        let rest = mem::take(&mut self.rest);
        let (word, shape, behind) = split_number(place, place - self.from, next - self.from, rest)?;
        self.rest = behind;
        self.from = next;
        Ok(number(word, shape))
    }
}
