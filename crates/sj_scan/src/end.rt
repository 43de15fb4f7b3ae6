//! What a walk over a whole text finds beside its positions, and the tests on it.
ghost use Rattle.std.specs.Prelude.{◌≡◌, ◌≢◌, ℕ, List, IfErr, vec_capacity};
ghost use Rattle.sj_scan.specs.Positions.{positions};
ghost use Rattle.sj_scan.specs.Scan.{Scans};
ghost use Rattle.sj_scan.specs.inside.End.{Ends, Answers};

use crate::stage1::ScanFault;

#[derive(Clone, Copy)]
pub(crate) struct End {
    pub(crate) is_utf8: bool,
    /// A string is open.
    pub(crate) inside: bool,
    pub(crate) has_control: bool,
}

impl End {
    /// Makes the tests in their order, where `out` holds the positions. After a fault it is empty.
    pub(crate) fn answer(self, out: &mut Vec<u32>) -> Result<(), ScanFault>
        ensures scans { (bytes : List ℕ) → Ends bytes self → out.old.items ≡ positions bytes → Scans bytes result out.new.items }
        ensures fault { IfErr result (λ fault. fault ≢ ScanFault.Memory) }
        ensures capacity { vec_capacity out.new ≡ vec_capacity out.old }
    {
        let answer = self.first_fault(out);
        if answer.is_err() {
            out.clear();
        }
        answer
    }

    fn first_fault(self, found: &[u32]) -> Result<(), ScanFault>
        ensures scans { (bytes : List ℕ) → Ends bytes self → found.now ≡ positions bytes → Answers bytes result }
        ensures fault { IfErr result (λ fault. fault ≢ ScanFault.Memory) }
    {
        if !self.is_utf8 {
            return Err(ScanFault::Utf8);
        }
        if self.inside {
            return Err(ScanFault::Unclosed);
        }
        if self.has_control {
            return Err(ScanFault::Control);
        }
        if found.is_empty() {
            return Err(ScanFault::NoToken);
        }
        Ok(())
    }
}
