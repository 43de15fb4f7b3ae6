//! Of `sj_owned`: the texts of a document are read back as the document.
ghost use Rattle.std.specs.Prelude.{IfOk};
ghost use Rattle.sj_base.specs.Spelling.{Spells};
ghost use Rattle.sj_owned.specs.Views.{value_tree};

use super::{expect_eq, owned_of};
use sj_base::laws::printing_reads_back;
use sj_object::ObjectKey;
use sj_owned::{Literal, OwnedValue, Value, to_owned_value};
use std::alloc::{AllocError, Global};
use std::process::Abort;

// The text of a document, compact or indented. Its clause says what the text spells, so that every reading of it gives this tree.
fn text_of<K: ObjectKey, D: Literal>(
    alloc: Global,
    value: &Value<K, D>,
    is_indented: bool,
) -> Result<Vec<u8>, AllocError>
    ensures { IfOk result (λ text. Spells text.items (value_tree K.text D.literal value.now)) }
{
    printing_reads_back();
    // Its clause says that the tree is valid, which the law asks for.
    let _levels = value.depth()?;
    let mut text = Vec::new(alloc);
    if is_indented {
        value.encode_pp(&mut text)?;
    } else {
        value.encode(&mut text)?;
    }
    Ok(text)
}

// Reads the text of a document back.
fn expect_read_back(rt: &impl Abort, alloc: Global, value: &OwnedValue, is_indented: bool) {
    let mut text = text_of(alloc, value, is_indented).expect(rt, "memory");
    let read = to_owned_value(alloc, &mut text).expect(rt, "a document");
    expect_eq(rt, &read, value);
    drop(read);
}

#[test]
fn read_back(rt: HostRuntime) {
    for &json in &[
        "-0",
        r#"{"a":[1,-2,1.50,18446744073709551616],"":{"é":null,"\u001f":true}}"#,
        r#"[[],{},"\ud83d\ude00\"\\",{"b":[{"c":[]}]}]"#,
    ] {
        let value = owned_of(&rt, rt.alloc(), json);
        expect_read_back(&rt, rt.alloc(), &value, false);
        expect_read_back(&rt, rt.alloc(), &value, true);
        drop(value);
    }
}
