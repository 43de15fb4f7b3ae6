//! Values that the commands of a script write.
ghost use Rattle.std.specs.Prelude.{◌≡◌, true, IfOk};
ghost use Rattle.sj_base.specs.Tree.{depth};
ghost use Rattle.sj_scripts.specs.Values.{owned_tree};
ghost use Rattle.sj_scripts.specs.inside.KeptValues.{is_kept};

use sj_owned::OwnedValue;
use std::alloc::AllocError;

/// A value that a command writes, with its depth, which is counted once. No object in it repeats a key.
#[derive(Debug, Drop)]
pub struct ScriptValue {
    value: OwnedValue,
    levels: usize,
    ghost counts_levels: { levels ≡ depth (owned_tree value) },
    ghost repeats_no_key: { is_kept (owned_tree value) ≡ true },
}

impl ScriptValue {
    /// Creates a value from a document.
    ///
    /// # Errors
    ///
    /// `AllocError` if the document nests more levels than a `usize` holds, which none in memory does.
    pub fn new(value: OwnedValue) -> Result<ScriptValue, AllocError>
        ensures value { IfOk result (λ v. v.value ≡ value) }
    {
        let levels = value.depth()?;
        Ok(ScriptValue { value, levels })
    }

    /// Returns the document.
    pub fn value(&self) -> &OwnedValue
        ensures { result.now ≡ self.now.value }
    {
        &self.value
    }

    /// Returns the number of levels that it nests.
    pub fn depth(&self) -> usize
        ensures { result ≡ depth (owned_tree self.now.value) }
    {
        self.levels
    }
}
