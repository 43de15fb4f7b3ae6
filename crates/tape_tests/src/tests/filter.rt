//! A caller with a contract of its own.
ghost use Rattle.std.specs.Prelude.{◌≡◌, ◌↔◌, Some, IsTrue, IfOk, IfErr};
ghost use Rattle.sj_base.specs.Path.{child, key};
ghost use Rattle.sj_base.specs.Spelling.{Document};
ghost use Rattle.sj_base.specs.Tree.{Tree, string};
ghost use Rattle.sj_base.specs.declared.TheConstants.{DEFAULT_MAX_DEPTH};
ghost use Rattle.sj_parse.specs.Answers.{IsErrorOf};
ghost use Rattle.sj_parse.specs.Fault.{fault};

use super::expect_at;
use sj_base::Error;
use sj_parse::to_tape;
use sj_tape::laws::listing_back;
use std::alloc::Global;
use std::test::Fail;

// README.md prints this function.
/// Returns whether the line is an object whose first member `name` is the text `want`.
fn has_text(alloc: Global, line: &mut [u8], name: &str, want: &str) -> Result<bool, Error>
    ensures found { IfOk result (λ b. (t : Tree) × Document line.entry.now DEFAULT_MAX_DEPTH t
        × (IsTrue b ↔ (child t (key name.now) ≡ Some (string want.now)))) }
    ensures refused { IfErr result (IsErrorOf (fault line.entry.now DEFAULT_MAX_DEPTH)) }
{
    let tape = to_tape(alloc, line)?;
    listing_back();
    match tape.as_value().get(name) {
        Some(member) => Ok(member.same_str(want)),
        None => Ok(false),
    }
}

#[test]
fn lines_with_a_text(rt: HostRuntime) -> Result<(), Fail> {
    let alloc = rt.alloc();
    let rows = [
        (r#"{"section": "admin"}"#, Some(true)),
        (r#"{"section": "\u0061dmin"}"#, Some(true)),
        (r#"{"section": "admin", "section": "net"}"#, Some(true)),
        (r#"{"section": "net"}"#, Some(false)),
        (r#"{"section": 1}"#, Some(false)),
        (r#"{}"#, Some(false)),
        (r#"["section", "admin"]"#, Some(false)),
        (r#"{"section": "admin"]"#, None),
    ];
    for (text, wanted) in rows {
        let mut line = text.as_bytes().to_vec(alloc)?;
        let found = has_text(alloc, &mut line, "section", "admin").ok();
        expect_at(&rt, text, found, wanted);
    }
    Ok(())
}
