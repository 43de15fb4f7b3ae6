//! Documents that are read from bytes: a text is read into a tape, and a document is built of it.
ghost use Rattle.std.specs.Prelude.{◌≡◌, ◌<◌, ◌≤◌, [], ◌∷◌, ◌++◌, Err, IfOk, IfErr, length};
ghost use Rattle.sj_base.specs.Keep.{keep};
ghost use Rattle.sj_base.specs.Spelling.{longest};
ghost use Rattle.sj_base.specs.declared.TheConstants.{DEFAULT_MAX_DEPTH};
ghost use Rattle.sj_tape.specs.Views.{nodes_tree, tape_nodes};
ghost use Rattle.sj_parse.specs.Fault.{generic};
ghost use Rattle.sj_parse.specs.Answers.{Leaves, buffer_texts, buffer_positions, buffer_limit, buffer_room, buffer_levels};
ghost use Rattle.sj_build.specs.Reading.{AnswersKept};

use crate::build::build_tape;
use crate::built::BuildValue;
use sj_base::ErrorType;
use sj_object::MakeKey;
use sj_parse::{Buffers, Result, to_tape, to_tape_with_buffers};
use sj_tape::Tape;
use std::alloc::Global;

/// Reads a document as a value of the type `V`, under the limit of [`sj_base::DEFAULT_MAX_DEPTH`] levels. Of members with
/// equal keys the first one is kept. Port of `simd_json::deserialize`.
///
/// Strings are decoded where they stand, so the bytes of the text may be rewritten, also where the call ends with an
/// error.
///
/// # Errors
///
/// Those of [`to_tape`], unchanged. `OutOfMemory` also comes if there is no memory for the document, or to build it.
pub fn deserialize<'de, V: BuildValue<'de, K> + Drop, K: MakeKey<'de> + Drop>(
    alloc: Global,
    s: &'de mut [u8],
) -> Result<V>
    ensures answers { AnswersKept V.tree s.entry.now DEFAULT_MAX_DEPTH result }
    ensures too_large { longest < length s.entry.now → result ≡ Err (generic ErrorType.InputTooLarge) }
{
    let tape = to_tape(alloc, s)?;
    build_document(alloc, tape)
}

/// Reads a document as [`deserialize`] does, by the buffers and under their limit.
///
/// # Errors
///
/// Those of [`to_tape_with_buffers`], unchanged, which says what they leave of the buffers. `OutOfMemory` also comes if there is
/// no memory for the document, or to build it. The buffers then have the positions of the text.
pub fn deserialize_with_buffers<'de, V: BuildValue<'de, K> + Drop, K: MakeKey<'de> + Drop>(
    alloc: Global,
    s: &'de mut [u8],
    buffers: &mut Buffers,
) -> Result<V>
    ensures answers { AnswersKept V.tree s.entry.now (buffer_limit buffers.old) result }
    ensures too_large { longest < length s.entry.now → result ≡ Err (generic ErrorType.InputTooLarge) }
    ensures scanned { length s.entry.now ≤ longest → Leaves s.entry.now result (buffer_positions buffers.new) }
    ensures not_scanned { longest < length s.entry.now → buffer_positions buffers.new ≡ buffer_positions buffers.old }
    ensures texts { buffer_texts buffers.new ≡ buffer_texts buffers.old ++ length s.entry.now ∷ [] }
    ensures limit { buffer_limit buffers.new ≡ buffer_limit buffers.old }
    ensures room { buffer_room buffers.old ≤ buffer_room buffers.new }
    ensures levels { buffer_levels buffers.old ≤ buffer_levels buffers.new }
{
    let tape = to_tape_with_buffers(alloc, s, buffers)?;
    build_document(alloc, tape)
}

/// Builds the document of a tape.
fn build_document<'de, V: BuildValue<'de, K> + Drop, K: MakeKey<'de> + Drop>(
    alloc: Global,
    tape: Tape<'de>,
) -> Result<V>
    ensures document { IfOk result (λ v. V.tree v ≡ keep (nodes_tree (tape_nodes tape.entry))) }
    ensures err { IfErr result (λ e. e ≡ generic ErrorType.OutOfMemory) }
{
    Ok(build_tape::<V, K>(alloc, tape)?)
}
