ghost use Rattle.std.specs.Prelude.{◌≡◌, IfOk, reverse};
ghost use Rattle.lp_terms.specs.WellFormed.{IsWellFormed};
ghost use Rattle.lp_terms.specs.View.{entries_of};
ghost use Rattle.dk_checker.specs.Inference as inference;
ghost use Rattle.dk_checker.specs.View.{halt_of, refusal_of};
ghost use Rattle.dk_checker.specs.Verdicts.{verdict_found, refusal_found, place_of};
ghost use Rattle.dk_checker.specs.Found as found;
ghost use Rattle.dk_checker.specs.declared.verdict.Verdict.TheVariants.{Accepted};

use crate::entry::check_entry;
use crate::stop::{Halt, Refusal, Stop};
use crate::verdict::{CheckRefusal, DkPath, DkPlace, Verdict};
use lp_terms::{DkFile, Entry};
use sqlite_items::Items;
use std::alloc::{AllocError, Global};

/// Whether the file is well formed, by inference of types. Its entries are checked in order, a part after the parts inside it,
/// from left to right, and the verdict is that of the first place that fails; `limit` bounds the steps to each normal form.
/// An accepted file is well formed; the converse doesn't hold where rules aren't confluent. The one error is want of memory.
///
/// It recurses once for each level of a term. What lies deeper than 4,000 levels counts as memory that isn't there.
#[tactic(auto, using(crate::proofs::Files::accepted_is_well_formed))]
pub fn check(alloc: Global, file: &DkFile, limit: u32) -> Result<Verdict, AllocError>
    ensures verdict { IfOk result (λ v. inference.check limit (entries_of file.now) ≡ verdict_found v) }
    ensures well_formed { IfOk result (λ v. v ≡ Accepted → IsWellFormed (entries_of file.now)) }
{
    check_entries(alloc, file.entries(), limit)
}

fn check_entries(alloc: Global, entries: &[Entry], limit: u32) -> Result<Verdict, AllocError>
    ensures { IfOk result (λ v. inference.check limit (entries_of entries.now) ≡ verdict_found v) }
{
    for number in 0..entries.len() {
        match check_entry(alloc, &entries[..number], limit, &entries[number]) {
            Ok(()) => (),
            Err(Stop::Memory) => return Err(AllocError),
            Err(Stop::Halted(halt)) => return verdict(alloc, number, halt),
        }
    }
    Ok(Verdict::Accepted)
}

// The verdict where an entry stops the check. No entry of a file holds a name or a variable without a type.
fn verdict(alloc: Global, entry: usize, halt: Halt) -> Result<Verdict, AllocError>
    ensures { IfOk result (λ v. verdict_found v ≡ found.Found.stops (found.in_part entry (halt_of halt))) }
{
    match halt {
        Halt::Refused { path, why } => {
            let path = outermost_first(alloc, path)?;
            Ok(Verdict::Refused(refusal(DkPlace { entry, path }, why)))
        }
        Halt::Spent(from) => Ok(Verdict::Spent { from }),
        Halt::Unbound => Err(AllocError),
    }
}

fn refusal(place: DkPlace, why: Refusal) -> CheckRefusal
    ensures { refusal_found result ≡ found.Stop.refused (place_of place) (refusal_of why) }
{
    match why {
        Refusal::Mismatch {
            found,
            wanted,
            found_normal,
            wanted_normal,
        } => CheckRefusal::Mismatch {
            place,
            found,
            wanted,
            found_normal,
            wanted_normal,
        },
        Refusal::NotProduct { found, normal } => CheckRefusal::NotProduct {
            place,
            found,
            normal,
        },
        Refusal::NotSort { found, normal } => CheckRefusal::NotSort {
            place,
            found,
            normal,
        },
        Refusal::BodyKind => CheckRefusal::BodyKind { place },
        Refusal::RuleHead => CheckRefusal::RuleHead { place },
    }
}

fn outermost_first(alloc: Global, path: DkPath) -> Result<DkPath, AllocError>
    ensures { IfOk result (λ p. p ≡ reverse path) }
{
    let mut rest = path;
    let mut turned = Items::new(alloc);
    while let Some(part) = rest.pop() {
        turned.push(part)?;
    }
    Ok(turned)
}
