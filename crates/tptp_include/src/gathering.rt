// The whole of what is gathered.
ghost use Rattle.std.specs.Prelude.{◌≡◌, ◌≤◌, ◌∷◌, [], ℕ, List, length, map, IfErr, IfOk, IfSome, Some};
ghost use Rattle.zm_base.specs.Library.{NamedFile};
ghost use Rattle.zm_base.specs.Outside.{Rose};
ghost use Rattle.tptp_reader.specs.Raw.{Name};
ghost use Rattle.tptp_include.specs.Gathering.{GathersAll, most_bytes, Outcome};
ghost use Rattle.tptp_include.specs.Outcomes.{placed_of, refusal_of};

use crate::file_name::FileName;
use crate::files::{Reached, gather_file};
use crate::gathered::Gathered;
use crate::refusal::GatherRefusal;
use std::alloc::{AllocError, Global};
use tptp_reader::answers_are_equal;
use zm_base::Library;

// What leads to the first file.
fn first(alloc: Global, name: &FileName, count: usize) -> Result<Reached, AllocError>
    ensures { IfOk result (λ r. (r.count ≡ count) × (r.path.items ≡ name.now ∷ [])) }
{
    let mut path = Vec::new(alloc);
    path.push(name.share()?)?;
    Ok(Reached { path, count })
}

/// Gathers the statements of a text, with each include replaced by the statements of its file, or by those of them that the
/// include asks for by name. `name` is the name of the text, and `library` has the other files.
///
/// The first refusal in the order of the text is told. At an include the refusals come in the order in which
/// [`GatherRefusal`] lists them, from `IncludeDepth` to `TooLarge`; then come those inside its file, and then
/// `NoSuchFormula`. The library's files stay as they are. After a refusal nothing is kept.
pub fn gather<L: Library>(
    alloc: Global,
    library: &mut L,
    name: &str,
    bytes: &[u8],
) -> Result<Gathered, GatherRefusal>
    requires { length bytes.now ≤ most_bytes }

    // Where the library tells its files, the answer is the one outcome, unless the library or memory failed.
    ensures list { IfOk result (λ gathered. IfSome (L.files library.old) (λ fs.
        (count : ℕ) × GathersAll fs name.now bytes.now (Outcome.gathered (map placed_of gathered) count))) }
    ensures refused { IfErr result (λ e. IfSome (refusal_of e) (λ r. IfSome (L.files library.old) (λ fs.
        GathersAll fs name.now bytes.now (Outcome.refused r)))) }

    ensures files { L.files library.new ≡ L.files library.old }
    ensures later { L.faults library.old ≤ L.faults library.new }
    ensures failed { result ≡ Err GatherRefusal.LibraryFault →
        Rose (L.faults library.old) (L.faults library.new) }
{
    let name = FileName::of(alloc, name)?;
    let mut reached = first(alloc, &name, bytes.len())?;
    let list = gather_file(alloc, library, &mut reached, &name, bytes)?;
    Ok(Gathered::of(list))
}

/// A law: for given files a text has at most one outcome, a list with its number of bytes read, or the first refusal.
pub fn outcomes_are_equal()
    ensures { (files : List NamedFile) (name : Name) (bytes : List ℕ) (one other : Outcome) →
        GathersAll files name bytes one → GathersAll files name bytes other → one ≡ other }
{
    answers_are_equal();
}
