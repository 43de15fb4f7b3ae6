//! The descent over the tokens of a text, with a stack of its own.
ghost use Rattle.std.specs.Prelude.{◌≡◌, ◌≢◌, ℕ, List, [], ◌∷◌, ◌++◌, ◌+◌, ◌-◌, ◌<◌, ◌≤◌, ◌⊎◌, if◌then◌else◌, not, nat_lt, IfErr, OnOk, MatchResult, Some, None, min, length, drop, slice_index, IsUtf8, vec_len, vec_capacity};
ghost use Rattle.sj_tape.specs.Nodes.{entries};
ghost use Rattle.sj_parse.specs.Token.{Token};
ghost use Rattle.sj_parse.specs.Descent.{scalar_stop};
ghost use Rattle.sj_parse.specs.Nodes.{HaveCarriers};
ghost use Rattle.sj_parse.specs.inside.Machine.{Waiting, Config, IsAt, waiting_entries, waiting_stack};
ghost use Rattle.sj_parse.specs.Fault.{fault, descent_error};
ghost use Rattle.sj_parse.specs.Answers.{IsTapeOf};
ghost use Rattle.sj_parse.specs.Counts.{ReadsEachOnce, ReadsAll};
ghost use Rattle.sj_parse.specs.inside.Underway.{Underway, Stopped};
ghost use Rattle.sj_base.specs.Reads.{noted, reads_items, reads_places};
ghost use Rattle.sj_scan.specs.Positions.{positions};
ghost use Rattle.sj_scan.specs.Scan.{scan_fault};
ghost use Rattle.sj_base.specs.Spelling.{longest};
ghost use Rattle.sj_base.specs.Tree.{Tree};
ghost use Rattle.sj_tape.specs.Listing.{listing};
ghost use Rattle.sj_parse.specs.inside.Step.{string_body, token_of, left_kind_of, role_of, StopsAt, unexpected_kind, Steps, value_from, reading_from, Begins, IsScalarNode};
ghost use Rattle.sj_parse.specs.inside.Tail.{Holds, Reaches, IsBehind, first_byte, token_here};

use crate::atoms::{is_valid_false_atom, is_valid_null_atom, is_valid_true_atom};
use crate::containers::{Frame, add_scalar, close, open};
use crate::descent_fault::{DescentFault, DescentKind, Stop};
use crate::tail::Tail;
use sj_base::{Reads, StaticNode};
use sj_tape::Node;

/// What may come next.
#[derive(Clone, Copy, PartialEq, Eq)]
pub(crate) enum State {
    Value,
    FirstItem,
    ItemEnd,
    FirstMember,
    Key,
    Colon,
    MemberEnd,
    End,
}

impl State {
    /// The kind of the fault where something else comes.
    #[inline(always)]
    fn unexpected(self) -> DescentKind
        requires { self ≢ State.End }
        ensures { result ≡ unexpected_kind self }
    {
        match self {
            State::Value => DescentKind::InternalError,
            State::FirstItem => DescentKind::ExpectedArrayContent,
            State::ItemEnd => DescentKind::ExpectedArrayComma,
            State::FirstMember => DescentKind::ExpectedObjectContent,
            State::Key => DescentKind::ExpectedObjectKey,
            State::Colon => DescentKind::ExpectedObjectColon,
            State::MemberEnd => DescentKind::ExpectedMapComma,
            State::End => unreachable!(),
        }
    }

    /// What the byte is here, as the first of a token.
    #[inline(always)]
    fn role(self, byte: u8) -> Role
        ensures { result ≡ role_of self byte }
    {
        match self {
            State::Value => Role::Value,
            State::FirstItem if byte == b']' => Role::Close,
            State::FirstItem => Role::Value,
            State::ItemEnd if byte == b']' => Role::Close,
            State::ItemEnd if byte == b',' => Role::Separator(State::Value),
            State::FirstMember if byte == b'}' => Role::Close,
            State::FirstMember | State::Key if byte == b'"' => Role::Key,
            State::Colon if byte == b':' => Role::Separator(State::Value),
            State::MemberEnd if byte == b'}' => Role::Close,
            State::MemberEnd if byte == b',' => Role::Separator(State::Key),
            _ => Role::Unexpected,
        }
    }
}

/// What the first byte of a token is in a state.
#[derive(Clone, Copy)]
enum Role {
    /// A closing bracket.
    Close,
    /// A comma or a colon. The field is the state after it.
    Separator(State),
    /// It begins a key.
    Key,
    /// It may begin a value.
    Value,
    Unexpected,
}

/// What a byte begins.
#[derive(Clone, Copy)]
enum Opening {
    Array,
    Object,
    String,
    Literal,
    Number,
    Nothing,
}

#[inline(always)]
fn begins(byte: u8) -> Opening
    ensures { Begins byte result }
{
    match byte {
        b'[' => Opening::Array,
        b'{' => Opening::Object,
        b'"' => Opening::String,
        b't' | b'f' | b'n' => Opening::Literal,
        b'-' | b'0'..=b'9' => Opening::Number,
        _ => Opening::Nothing,
    }
}

/// The value of the literal that begins the bytes.
#[inline(always)]
fn literal(place: usize, bytes: &[u8]) -> Result<StaticNode, Stop>
    requires some { 0 < length bytes.now }
    requires letter { let b = slice_index bytes.now 0 in (b ≡ 0x74) ⊎ ((b ≡ 0x66) ⊎ (b ≡ 0x6e)) }
    ensures reads { (before : List ℕ) → MatchResult result (λ node. IsScalarNode (token_of place before bytes.now) (Node.Static node))
        (λ s. scalar_stop (token_of place before bytes.now) ≡ Some s) }
    ensures at { IfErr result (λ s. s.place ≡ place) }
{
    let (is_valid, node, kind) = match bytes[0] {
        b't' => (
            is_valid_true_atom(bytes),
            StaticNode::Bool(true),
            DescentKind::ExpectedTrue,
        ),
        b'f' => (
            is_valid_false_atom(bytes),
            StaticNode::Bool(false),
            DescentKind::ExpectedFalse,
        ),
        _ => (
            is_valid_null_atom(bytes),
            StaticNode::Null,
            DescentKind::ExpectedNull,
        ),
    };
    if is_valid {
        Ok(node)
    } else {
        Err(Stop { kind, place })
    }
}

/// Reads the value that begins at `place`: a whole scalar, or the opening bracket of a container.
#[inline(always)]
fn read_value<'i>(
    unexpected: DescentKind,
    place: usize,
    next: usize,
    limit: usize,
    tail: &mut Tail<'i>,
    nodes: &mut Vec<Node<'i>>,
    stack: &mut Vec<Frame>,
) -> Result<State, Stop>
    requires token { Holds place next tail.old }
    requires body { first_byte place tail.old ≡ 0x22 → IsUtf8 (string_body (drop (place - tail.old.from + 1) tail.old.rest.now)) }
    requires reaches { Reaches place next tail.old }
    requires waits { (ws : List Waiting) × (entries nodes.old.items ≡ waiting_entries ws) × (stack.old.items ≡ waiting_stack ws) }
    requires nodes { vec_len nodes.old < vec_capacity nodes.old }
    requires stack { vec_len stack.old < limit → vec_len stack.old < vec_capacity stack.old }
    ensures steps { (ws : List Waiting) (before : List ℕ) → entries nodes.old.items ≡ waiting_entries ws → stack.old.items ≡ waiting_stack ws
        → Steps limit place (value_from limit unexpected ws (token_here place before tail.old)) result (entries nodes.new.items) stack.new.items }
    ensures carriers { (ts : List Token) (before : List ℕ) → HaveCarriers ts nodes.old.items
        → OnOk result (HaveCarriers (ts ++ token_here place before tail.old ∷ []) nodes.new.items) }
    ensures tail { OnOk result (IsBehind next tail.old tail.new) }
    ensures stops { IfErr result (StopsAt place (place - tail.old.from) tail.old.rest.now) }
    ensures capacity { (vec_capacity nodes.new ≡ vec_capacity nodes.old) × (vec_capacity stack.new ≡ vec_capacity stack.old) }
    ensures grows { (vec_len nodes.new ≤ vec_len nodes.old + 1) × (vec_len stack.new ≤ vec_len stack.old + 1) }
    ensures levels { vec_len stack.old ≤ limit → vec_len stack.new ≤ limit }
{
    match begins(tail.rest[place - tail.from]) {
        Opening::Array => open(place, limit, false, nodes, stack),
        Opening::Object => open(place, limit, true, nodes, stack),
        Opening::String => {
            let text = tail.take_string(place, next)?;
            Ok(add_scalar(Node::String(text), nodes, stack))
        }
        Opening::Literal => {
            let node = literal(place, tail.starting_at(place))?;
            Ok(add_scalar(Node::Static(node), nodes, stack))
        }
        Opening::Number => {
            let node = tail.take_number(place, next)?;
            Ok(add_scalar(node, nodes, stack))
        }
        Opening::Nothing => Err(Stop {
            kind: unexpected,
            place,
        }),
    }
}

/// Reads the token that begins at `place`. The next one begins at `next`, or the text ends there.
#[inline(always)]
fn step<'i>(
    state: State,
    place: usize,
    next: usize,
    limit: usize,
    tail: &mut Tail<'i>,
    nodes: &mut Vec<Node<'i>>,
    stack: &mut Vec<Frame>,
) -> Result<State, Stop>
    requires goes_on { state ≢ State.End }
    requires at { (c : Config) × IsAt c state (entries nodes.old.items) stack.old.items }
    requires token { Holds place next tail.old }
    requires body { first_byte place tail.old ≡ 0x22 → IsUtf8 (string_body (drop (place - tail.old.from + 1) tail.old.rest.now)) }
    requires reaches { Reaches place next tail.old }
    requires nodes { vec_len nodes.old < vec_capacity nodes.old }
    requires stack { vec_len stack.old < limit → vec_len stack.old < vec_capacity stack.old }
    ensures steps { (c : Config) (before : List ℕ) → IsAt c state (entries nodes.old.items) stack.old.items
        → Steps limit place (reading_from limit c (token_here place before tail.old)) result (entries nodes.new.items) stack.new.items }
    ensures carriers { (ts : List Token) (before : List ℕ) → HaveCarriers ts nodes.old.items
        → OnOk result (HaveCarriers (ts ++ token_here place before tail.old ∷ []) nodes.new.items) }
    ensures tail { OnOk result (IsBehind next tail.old tail.new) }
    ensures stops { IfErr result (StopsAt place (place - tail.old.from) tail.old.rest.now) }
    ensures capacity { (vec_capacity nodes.new ≡ vec_capacity nodes.old) × (vec_capacity stack.new ≡ vec_capacity stack.old) }
    ensures grows { (vec_len nodes.new ≤ vec_len nodes.old + 1) × (vec_len stack.new ≤ vec_len stack.old + 1) }
    ensures levels { vec_len stack.old ≤ limit → vec_len stack.new ≤ limit }
{
    match state.role(tail.rest[place - tail.from]) {
        Role::Close => Ok(close(nodes, stack)),
        Role::Separator(after) => Ok(after),
        Role::Key => {
            let key = tail.take_string(place, next)?;
            nodes.push_reserved(Node::String(key));
            Ok(State::Colon)
        }
        Role::Value => read_value(state.unexpected(), place, next, limit, tail, nodes, stack),
        Role::Unexpected => Err(Stop {
            kind: state.unexpected(),
            place,
        }),
    }
}

/// How far the descent over a text has come.
#[derive(Drop)]
struct Cursor<'i> {
    tail: Tail<'i>,
    /// The number of tokens that were read.
    count: usize,
    /// Where the next token begins, or the text ends.
    place: usize,
}

/// The place with that number and `false`, or `end` and `true` if there are no more places.
#[inline(always)]
fn place_at(places: &mut Reads<'_, u32>, number: usize, end: usize) -> (usize, bool)
    ensures place { result.0 ≡ if nat_lt number (length (reads_items places.old)) then slice_index (reads_items places.old) number else end }
    ensures is_last { result.1 ≡ not (nat_lt number (length (reads_items places.old))) }
    ensures items { reads_items places.new ≡ reads_items places.old }
    ensures places { reads_places places.new ≡ noted (reads_items places.old) (reads_places places.old) number }
{
    match places.at(number) {
        Some(place) => (*place as usize, false),
        None => (end, true),
    }
}

/// Reads the next token, in the state `known`, and sets `state` to what may come after it: to [`State::End`] after the last token,
/// and only then.
///
/// `known` is a parameter of its own so that an inlined copy can have a constant there.
///
/// # Errors
///
/// The first fault of the text. A text that is cut short has it at its last token.
#[inline(always)]
fn read_token<'i>(
    known: State,
    state: &mut State,
    limit: usize,
    places: &mut Reads<'_, u32>,
    cursor: &mut Cursor<'i>,
    nodes: &mut Vec<Node<'i>>,
    stack: &mut Vec<Frame>,
) -> Result<(), DescentFault>
    requires goes_on { known ≢ State.End }
    requires at { (input : List ℕ) × (read : List ℕ) × Underway input limit read places.old known cursor.old nodes.old stack.old }
    ensures reads { (input read : List ℕ) → Underway input limit read places.old known cursor.old nodes.old stack.old
        → MatchResult result (λ _. Underway input limit read places.new state.new cursor.new nodes.new stack.new)
        (Stopped input limit read places.new nodes.new stack.new) }
    ensures items { reads_items places.new ≡ reads_items places.old }
    ensures room { (vec_capacity nodes.new ≡ vec_capacity nodes.old) × (vec_capacity stack.new ≡ vec_capacity stack.old) }
    ensures count { OnOk result (cursor.new.count ≡ cursor.old.count + 1) }
{
    let place = cursor.place;
    let byte = cursor.tail.rest[place - cursor.tail.from];
    let end = cursor.tail.from + cursor.tail.rest.len();
    cursor.count += 1;
    let (next, is_last) = place_at(places, cursor.count, end);
    cursor.place = next;
    match step(known, place, next, limit, &mut cursor.tail, nodes, stack) {
        Ok(after) => {
            // The root must have its value after the last token, and not before it.
            if is_last {
                if after == State::End {
                    *state = after;
                    return Ok(());
                }
                let kind = DescentKind::Syntax;
                return Err(DescentFault {
                    kind,
                    index: place,
                    byte,
                });
            }
            if after == State::End {
                let kind = left_kind(nodes);
                return Err(DescentFault {
                    kind,
                    index: place,
                    byte,
                });
            }
            *state = after;
            Ok(())
        }
        Err(stop) => Err(stop.fault(place, byte)),
    }
}

/// Reads the next token if `state` is `expected`, and otherwise nothing. Where `expected` is a constant, an inlined copy needs no
/// `match` on the state.
///
/// # Errors
///
/// As [`read_token`].
#[inline(always)]
fn read_in<'i>(
    expected: State,
    state: &mut State,
    limit: usize,
    places: &mut Reads<'_, u32>,
    cursor: &mut Cursor<'i>,
    nodes: &mut Vec<Node<'i>>,
    stack: &mut Vec<Frame>,
) -> Result<(), DescentFault>
    requires goes_on { expected ≢ State.End }
    requires at { (input : List ℕ) × (read : List ℕ) × Underway input limit read places.old state.old cursor.old nodes.old stack.old }
    ensures reads { (input read : List ℕ) → Underway input limit read places.old state.old cursor.old nodes.old stack.old
        → MatchResult result (λ _. Underway input limit read places.new state.new cursor.new nodes.new stack.new)
        (Stopped input limit read places.new nodes.new stack.new) }
    ensures items { reads_items places.new ≡ reads_items places.old }
    ensures room { (vec_capacity nodes.new ≡ vec_capacity nodes.old) × (vec_capacity stack.new ≡ vec_capacity stack.old) }
    ensures count { OnOk result (cursor.old.count ≤ cursor.new.count) }
    // No caller needs this. It rules out a body that never reads, which the other clauses allow and which would be slower.
    ensures takes { state.old ≡ expected → OnOk result (cursor.new.count ≡ cursor.old.count + 1) }
{
    if *state == expected {
        read_token(expected, state, limit, places, cursor, nodes, stack)
    } else {
        Ok(())
    }
}

/// Reads tokens until the root has its value and no token is left.
///
/// # Errors
///
/// The first fault of the text.
#[inline(always)]
fn read_root<'i>(
    limit: usize,
    places: &mut Reads<'_, u32>,
    cursor: &mut Cursor<'i>,
    nodes: &mut Vec<Node<'i>>,
    stack: &mut Vec<Frame>,
) -> Result<(), DescentFault>
    requires at { (input : List ℕ) × (read : List ℕ) × Underway input limit read places.old State.Value cursor.old nodes.old stack.old }
    ensures reads { (input read : List ℕ) → Underway input limit read places.old State.Value cursor.old nodes.old stack.old
        → MatchResult result (λ _. Underway input limit read places.new State.End cursor.new nodes.new stack.new)
        (Stopped input limit read places.new nodes.new stack.new) }
    ensures items { reads_items places.new ≡ reads_items places.old }
    ensures room { (vec_capacity nodes.new ≡ vec_capacity nodes.old) × (vec_capacity stack.new ≡ vec_capacity stack.old) }
{
    let mut state = State::Value;
    loop {
        // Most members are a comma, a key, a colon and a value: the first three take one test of the state each.
        read_in(
            State::MemberEnd,
            &mut state,
            limit,
            places,
            cursor,
            nodes,
            stack,
        )?;
        read_in(State::Key, &mut state, limit, places, cursor, nodes, stack)?;
        read_in(
            State::Colon,
            &mut state,
            limit,
            places,
            cursor,
            nodes,
            stack,
        )?;
        // So does the comma of an array.
        read_in(
            State::ItemEnd,
            &mut state,
            limit,
            places,
            cursor,
            nodes,
            stack,
        )?;
        if state == State::End {
            return Ok(());
        }
        // And so does a value, where the choice by its first byte is the only one left.
        if state == State::Value {
            read_token(
                State::Value,
                &mut state,
                limit,
                places,
                cursor,
                nodes,
                stack,
            )?;
        } else {
            read_token(state, &mut state, limit, places, cursor, nodes, stack)?;
        }
    }
}

/// Reads the tokens of a text: appends the nodes of its tree, or answers its first fault. This is all of stage two after
/// its reservations, so it can't lack memory.
///
/// The text has at most `u32::MAX` bytes, and a scan ([`Stage1::scan`](sj_scan::Stage1::scan)) answered `Ok` for it; the
/// places are the positions that it gave. Each place is read once at most. The vectors are empty, and have room: the nodes
/// for as many as there are places, the stack for as many frames as there are places or levels, whichever are fewer. Nodes
/// and frames go into this room, which doesn't grow.
///
/// The bytes of the text may be rewritten, and after a fault the vectors hold what was read until then.
///
/// # Errors
///
/// The first fault, which names a byte of the text.
pub fn descend<'i>(
    input: &'i mut [u8],
    places: &mut Reads<'_, u32>,
    limit: usize,
    nodes: &mut Vec<Node<'i>>,
    stack: &mut Vec<Frame>,
) -> Result<(), DescentFault>
    requires scanned { scan_fault input.old ≡ None }
    requires places { reads_items places.old ≡ positions input.old }
    requires short { length input.old ≤ longest }
    requires empty { (nodes.old.items ≡ []) × (stack.old.items ≡ []) }
    requires nodes { length (reads_items places.old) ≤ vec_capacity nodes.old }
    requires stack { min limit (length (reads_items places.old)) ≤ vec_capacity stack.old }
    ensures tape { OnOk result ((fault input.entry.now limit ≡ None) × IsTapeOf input.entry.now limit nodes.new.items) }
    ensures fault { IfErr result (λ f. fault input.entry.now limit ≡ Some (descent_error f)) }
    ensures once { ReadsEachOnce (length (reads_items places.old)) (reads_places places.old) (reads_places places.new) }
    ensures all { OnOk result (ReadsAll (length (reads_items places.old)) (reads_places places.old) (reads_places places.new)) }
    ensures items { reads_items places.new ≡ reads_items places.old }
    ensures nodes { length nodes.new.items ≤ length (reads_items places.old) }
    ensures stack { length stack.new.items ≤ min limit (length (reads_items places.old)) }
    ensures room { (vec_capacity nodes.new ≡ vec_capacity nodes.old) × (vec_capacity stack.new ≡ vec_capacity stack.old) }
{
    let Some(first) = places.at(0) else {
        // A text in which the scan found no fault has a token.
        unreachable!();
    };
    let mut cursor = Cursor {
        tail: Tail {
            rest: input,
            from: 0,
        },
        count: 0,
        place: *first as usize,
    };
    match read_root(limit, places, &mut cursor, nodes, stack) {
        Ok(()) => Ok(()),
        // Made anew from its fields. Handed on whole, it would keep its padding bytes, and the loop would copy them at each token.
        Err(DescentFault { kind, index, byte }) => Err(DescentFault { kind, index, byte }),
    }
}

/// The kind of the fault where tokens are left after a root with these nodes.
fn left_kind(nodes: &[Node<'_>]) -> DescentKind
    ensures { (t : Tree) → entries nodes.now ≡ listing t → result ≡ left_kind_of t }
{
    match nodes.first() {
        Some(Node::Array { .. } | Node::Object { .. }) => DescentKind::InternalError,
        _ => DescentKind::TrailingData,
    }
}
