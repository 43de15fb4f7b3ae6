//! Documents built of tapes.
ghost use Rattle.std.specs.Prelude.{◌≡◌, IfOk, option_map};
ghost use Rattle.sj_base.specs.Keep.{keep};
ghost use Rattle.sj_owned.specs.Views.{value_tree};
ghost use Rattle.sj_tape.specs.Views.{tape_tree};

use sj_base::{DecimalBuf, DecimalCow};
use sj_object::MakeKey;
use sj_owned::{MakeLiteral, Value, build_value};
use sj_tape::Tape;
use std::alloc::{AllocError, Global};
use std::borrow::CowStr;

/// Whether a document owns its texts or borrows them.
#[derive(Clone, Copy)]
pub(crate) enum Form {
    Owned,
    Borrowed,
}

/// Builds the tape's document in this form, if it has one, and drops it.
pub(crate) fn build_in(alloc: Global, form: Form, tape: &Tape<'_>) -> Result<(), AllocError> {
    match form {
        Form::Owned => {
            build::<String, DecimalBuf>(alloc, tape)?;
        }
        Form::Borrowed => {
            build::<CowStr<'_>, DecimalCow<'_>>(alloc, tape)?;
        }
    }
    Ok(())
}

/// Builds the tape's document, if it has one.
fn build<'de, K: MakeKey<'de> + Drop, D: MakeLiteral<'de> + Drop>(
    alloc: Global,
    tape: &Tape<'de>,
) -> Result<Option<Value<K, D>>, AllocError>
    ensures { IfOk result (λ built. option_map (value_tree K.text D.literal) built ≡ option_map keep (tape_tree tape.now)) }
{
    if tape.is_empty() {
        return Ok(None);
    }
    Ok(Some(build_value::<Value<K, D>, K>(alloc, tape.as_value())?))
}
