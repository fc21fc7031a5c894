use crate::case::CaseFault;
use crate::printed::shown;
use std::alloc::{AllocError, Global};

/// How many cases of a table were tried, and how many of them held.
#[derive(Clone, Copy, Debug)]
pub(crate) struct Score {
    name: &'static str,
    cases: usize,
    held: usize,
}

// What is printed of a case that doesn't hold.
fn difference(
    alloc: Global,
    name: &str,
    line: usize,
    wanted: &[u8],
    found: &[u8],
) -> Result<String, AllocError> {
    let mut text = String::new(alloc);
    write!(text, "{name}:{line}: wanted ")?;
    text.push_str(shown(alloc, wanted)?.as_str())?;
    text.push_str(", found ")?;
    text.push_str(shown(alloc, found)?.as_str())?;
    Ok(text)
}

impl Score {
    /// No case so far of the table with this name.
    pub(crate) fn new(name: &'static str) -> Score {
        Score {
            name,
            cases: 0,
            held: 0,
        }
    }

    /// Counts the case that begins at this line, and prints what was found where it isn't what is wanted.
    pub(crate) fn note(
        &mut self,
        rt: &HostRuntime,
        line: usize,
        wanted: &[u8],
        found: &[u8],
    ) -> Result<(), CaseFault> {
        self.cases = self.cases.saturating_add(1);
        if wanted == found {
            self.held = self.held.saturating_add(1);
            return Ok(());
        }
        let text = difference(rt.alloc(), self.name, line, wanted, found)?;
        let _ = rt.println(text);
        Ok(())
    }

    /// Prints how many cases held of how many, and says whether all did.
    pub(crate) fn finish(&self, rt: &HostRuntime) -> bool {
        let Score { name, cases, held } = *self;
        println!(rt; "{name}: {held} of {cases} cases").is_ok() && held == cases
    }
}
