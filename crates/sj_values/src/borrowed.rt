//! Documents that may borrow their texts. Port of the module `simd_json::borrowed`.
ghost use Rattle.std.specs.Prelude.{◌≡◌, ◌<◌, ◌≤◌, [], ◌∷◌, ◌++◌, Err, length};
ghost use Rattle.std.specs.Cow.{cow_str_bytes};
ghost use Rattle.sj_base.specs.Scalar.{decimal_cow_text};
ghost use Rattle.sj_base.specs.Spelling.{longest};
ghost use Rattle.sj_base.specs.declared.TheConstants.{DEFAULT_MAX_DEPTH};
ghost use Rattle.sj_base.specs.declared.error.ErrorType.TheVariants.{InputTooLarge};
ghost use Rattle.sj_parse.specs.Fault.{generic};
ghost use Rattle.sj_parse.specs.Answers.{Leaves, buffer_texts, buffer_positions, buffer_limit, buffer_room, buffer_levels};
ghost use Rattle.sj_build.specs.Reading.{AnswersKept};
ghost use Rattle.sj_owned.specs.Views.{value_tree};

use sj_base::DecimalCow;
use sj_owned::{ValueDeserializer, deserialize, deserialize_with_buffers};
use sj_parse::{Buffers, Result};
use std::alloc::Global;
use std::borrow::CowStr;

/// A document whose texts may be borrowed. Port of `simd_json::BorrowedValue`.
pub type Value<'v> = sj_owned::Value<CowStr<'v>, DecimalCow<'v>>;

/// An object of a document whose texts may be borrowed.
pub type Object<'v> = sj_object::Object<CowStr<'v>, Value<'v>>;

/// The items of an array of a document whose texts may be borrowed.
pub type Array<'v> = Vec<Value<'v>>;

/// Builds, from the nodes of a tape, documents whose texts may be borrowed. Port of `simd_json::borrowed::BorrowDeserializer`.
pub type BorrowDeserializer<'v> = ValueDeserializer<'v, Value<'v>, CowStr<'v>>;

/// Reads a document that may borrow from `s`, under the limit of [`sj_base::DEFAULT_MAX_DEPTH`] levels, as [`deserialize`]
/// does. Port of `simd_json::borrowed::to_value`.
///
/// # Errors
///
/// Those of [`deserialize`].
pub fn to_value<'v>(alloc: Global, s: &'v mut [u8]) -> Result<Value<'v>>
    ensures answers { AnswersKept (value_tree cow_str_bytes decimal_cow_text) s.entry.now DEFAULT_MAX_DEPTH result }
    ensures too_large { longest < length s.entry.now → result ≡ Err (generic InputTooLarge) }
{
    deserialize::<Value<'v>, CowStr<'v>>(alloc, s)
}

/// Reads a document that may borrow from `s`, by the buffers and under their limit, as [`deserialize_with_buffers`] does.
/// Port of `simd_json::borrowed::to_value_with_buffers`.
///
/// # Errors
///
/// Those of [`deserialize_with_buffers`].
pub fn to_value_with_buffers<'v>(
    alloc: Global,
    s: &'v mut [u8],
    buffers: &mut Buffers,
) -> Result<Value<'v>>
    ensures answers { AnswersKept (value_tree cow_str_bytes decimal_cow_text) s.entry.now (buffer_limit buffers.old) result }
    ensures too_large { longest < length s.entry.now → result ≡ Err (generic InputTooLarge) }
    ensures scanned { length s.entry.now ≤ longest → Leaves s.entry.now result (buffer_positions buffers.new) }
    ensures not_scanned { longest < length s.entry.now → buffer_positions buffers.new ≡ buffer_positions buffers.old }
    ensures texts { buffer_texts buffers.new ≡ buffer_texts buffers.old ++ length s.entry.now ∷ [] }
    ensures limit { buffer_limit buffers.new ≡ buffer_limit buffers.old }
    ensures room { buffer_room buffers.old ≤ buffer_room buffers.new }
    ensures levels { buffer_levels buffers.old ≤ buffer_levels buffers.new }
{
    deserialize_with_buffers::<Value<'v>, CowStr<'v>>(alloc, s, buffers)
}
