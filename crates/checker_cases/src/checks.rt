// What the checker finds in a Dedukti text.
use crate::terms::{printed_class, printed_term};
use case_tables::{Case, CaseFault, Table};
use dk_checker::{CheckRefusal, Class, DkPlace, Verdict, check};
use dk_reader::read_dk;
use lp_terms::Lp;
use std::alloc::{AllocError, Global};

/// The verdicts on texts.
pub struct Checks;

// A line: a word, and a value behind it.
fn add_line(out: &mut Vec<u8>, word: &str, value: &[u8]) -> Result<(), AllocError> {
    out.extend_from_slice(word.as_bytes())?;
    out.extend_from_slice(value)?;
    out.push(b'\n')?;
    Ok(())
}

fn add_class(
    alloc: Global,
    out: &mut Vec<u8>,
    word: &str,
    class: &Class,
) -> Result<(), AllocError> {
    let text = printed_class(alloc, class)?;
    add_line(out, word, text.as_slice())
}

// What is refused, and in which entry.
fn add_refused(
    alloc: Global,
    out: &mut Vec<u8>,
    what: &str,
    place: &DkPlace,
) -> Result<(), AllocError> {
    let entry = place.entry;
    let text = format!(in alloc; "refused: {what} in entry {entry}")?;
    add_line(out, text.as_str(), b"")
}

// The numbers of the parts that lead to the place.
fn add_path(alloc: Global, out: &mut Vec<u8>, place: &DkPlace) -> Result<(), AllocError> {
    out.extend_from_slice(b"path:")?;
    for part in place.path.as_slice() {
        let text = format!(in alloc; " {part}")?;
        out.extend_from_slice(text.as_bytes())?;
    }
    add_line(out, "", b"")
}

fn add_mismatch(
    alloc: Global,
    out: &mut Vec<u8>,
    types: (&Class, &Class),
    normal: (&Class, &Class),
) -> Result<(), AllocError> {
    add_class(alloc, out, "found: ", types.0)?;
    add_class(alloc, out, "wanted: ", types.1)?;
    add_class(alloc, out, "found normal: ", normal.0)?;
    add_class(alloc, out, "wanted normal: ", normal.1)
}

fn add_found(
    alloc: Global,
    out: &mut Vec<u8>,
    found: &Class,
    normal: &Class,
) -> Result<(), AllocError> {
    add_class(alloc, out, "found: ", found)?;
    add_class(alloc, out, "found normal: ", normal)
}

// The place of a refusal.
fn place_of(refusal: &CheckRefusal) -> &DkPlace {
    match refusal {
        CheckRefusal::Mismatch {
            place,
            found: _,
            wanted: _,
            found_normal: _,
            wanted_normal: _,
        } => place,
        CheckRefusal::NotProduct {
            place,
            found: _,
            normal: _,
        } => place,
        CheckRefusal::NotSort {
            place,
            found: _,
            normal: _,
        } => place,
        CheckRefusal::BodyKind { place } => place,
        CheckRefusal::RuleHead { place } => place,
    }
}

fn add_refusal(alloc: Global, out: &mut Vec<u8>, refusal: &CheckRefusal) -> Result<(), AllocError> {
    match refusal {
        CheckRefusal::Mismatch {
            place,
            found,
            wanted,
            found_normal,
            wanted_normal,
        } => {
            add_refused(alloc, out, "mismatch", place)?;
            add_mismatch(alloc, out, (found, wanted), (found_normal, wanted_normal))
        }
        CheckRefusal::NotProduct {
            place,
            found,
            normal,
        } => {
            add_refused(alloc, out, "not a product", place)?;
            add_found(alloc, out, found, normal)
        }
        CheckRefusal::NotSort {
            place,
            found,
            normal,
        } => {
            add_refused(alloc, out, "not a sort", place)?;
            add_found(alloc, out, found, normal)
        }
        CheckRefusal::BodyKind { place } => add_refused(alloc, out, "kind body", place),
        CheckRefusal::RuleHead { place } => add_refused(alloc, out, "rule head", place),
    }
}

fn add_spent(alloc: Global, out: &mut Vec<u8>, from: &Lp) -> Result<(), AllocError> {
    let text = printed_term(alloc, from)?;
    add_line(out, "unknown: reductions", b"")?;
    add_line(out, "from: ", text.as_slice())
}

// The verdict, and the path to the place where it is asked for.
fn told(alloc: Global, verdict: &Verdict, with_path: bool) -> Result<Vec<u8>, AllocError> {
    let mut out = Vec::new(alloc);
    match verdict {
        Verdict::Accepted => add_line(&mut out, "accepted", b"")?,
        Verdict::Refused(refusal) => {
            add_refusal(alloc, &mut out, refusal)?;
            if with_path {
                add_path(alloc, &mut out, place_of(refusal))?;
            }
        }
        Verdict::Spent { from } => add_spent(alloc, &mut out, from)?,
    }
    Ok(out)
}

impl Table for Checks {
    fn name(&self) -> &'static str {
        "checks"
    }

    fn words(&self) -> &'static [&'static str] {
        &["front", "reductions", "path"]
    }

    fn answer(&self, alloc: Global, case: &Case) -> Result<Vec<u8>, CaseFault> {
        let mut text = match case.joined(alloc, "front")? {
            Some(front) => front,
            None => Vec::new(alloc),
        };
        let behind = case.wanted(alloc, "text")?;
        text.extend_from_slice(behind.as_slice())?;
        let limit = case.number("reductions", 1_000_000)?;
        let Ok(limit) = u32::try_from(limit) else {
            return Err(CaseFault::Broken);
        };
        let Ok(file) = read_dk(alloc, text.as_slice()) else {
            return Err(CaseFault::Broken);
        };
        let verdict = check(alloc, &file, limit)?;
        let out = told(alloc, &verdict, case.first("path").is_some())?;
        Ok(out)
    }
}
