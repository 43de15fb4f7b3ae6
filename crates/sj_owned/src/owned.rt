//! Documents that own their texts. Port of the module `simd_json::owned`.
ghost use Rattle.std.specs.Prelude.{◌≡◌, ◌<◌, ◌≤◌, [], ◌∷◌, ◌++◌, Err, length, string_bytes};
ghost use Rattle.sj_base.specs.Scalar.{decimal_buf_text};
ghost use Rattle.sj_base.specs.Spelling.{longest};
ghost use Rattle.sj_base.specs.declared.TheConstants.{DEFAULT_MAX_DEPTH};
ghost use Rattle.sj_base.specs.declared.error.ErrorType.TheVariants.{InputTooLarge};
ghost use Rattle.sj_parse.specs.Fault.{generic};
ghost use Rattle.sj_parse.specs.Answers.{Leaves, buffer_texts, buffer_positions, buffer_limit, buffer_room, buffer_levels};
ghost use Rattle.sj_build.specs.Reading.{AnswersKept};
ghost use Rattle.sj_owned.specs.Views.{value_tree};

use sj_base::DecimalBuf;
use sj_build::{ValueDeserializer, deserialize, deserialize_with_buffers};
use sj_parse::{Buffers, Result};
use std::alloc::Global;

/// A document that owns its texts. Port of `simd_json::OwnedValue`.
pub type Value = crate::value::Value<String, DecimalBuf>;

/// An object of a document that owns its texts.
pub type Object = sj_object::Object<String, Value>;

/// Builds, from the nodes of a tape, documents that own their texts. Port of `simd_json::owned::OwnedDeserializer`.
pub type OwnedDeserializer<'de> = ValueDeserializer<'de, Value, String>;

/// Reads a document, under the limit of [`sj_base::DEFAULT_MAX_DEPTH`] levels, as [`deserialize`] does. Port of
/// `simd_json::owned::to_value`.
///
/// # Errors
///
/// Those of [`deserialize`].
pub fn to_value(alloc: Global, s: &mut [u8]) -> Result<Value>
    ensures answers { AnswersKept (value_tree string_bytes decimal_buf_text) s.old DEFAULT_MAX_DEPTH result }
    ensures too_large { longest < length s.old → result ≡ Err (generic InputTooLarge) }
{
    deserialize::<Value, String>(alloc, s)
}

/// Reads a document by the buffers and under their limit, as [`deserialize_with_buffers`] does. Port of
/// `simd_json::owned::to_value_with_buffers`.
///
/// # Errors
///
/// Those of [`deserialize_with_buffers`].
pub fn to_value_with_buffers(alloc: Global, s: &mut [u8], buffers: &mut Buffers) -> Result<Value>
    ensures answers { AnswersKept (value_tree string_bytes decimal_buf_text) s.old (buffer_limit buffers.old) result }
    ensures too_large { longest < length s.old → result ≡ Err (generic InputTooLarge) }
    ensures scanned { length s.old ≤ longest → Leaves s.old result (buffer_positions buffers.new) }
    ensures not_scanned { longest < length s.old → buffer_positions buffers.new ≡ buffer_positions buffers.old }
    ensures texts { buffer_texts buffers.new ≡ buffer_texts buffers.old ++ length s.old ∷ [] }
    ensures limit { buffer_limit buffers.new ≡ buffer_limit buffers.old }
    ensures room { buffer_room buffers.old ≤ buffer_room buffers.new }
    ensures levels { buffer_levels buffers.old ≤ buffer_levels buffers.new }
{
    deserialize_with_buffers::<Value, String>(alloc, s, buffers)
}
