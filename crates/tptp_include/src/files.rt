// Files within files.
ghost use Rattle.std.specs.Prelude.{◌≡◌, ◌≤◌, ◌+◌, ◌++◌, ◌∷◌, [], ℕ, List, length, map, IfOk, IfSome, OnOk, Some, vec_len};
ghost use Rattle.std.specs.List.{AllByRecursion};
ghost use Rattle.zm_base.specs.Library.{NamedFile};
ghost use Rattle.zm_base.specs.Outside.{Rose};
ghost use Rattle.tptp_reader.specs.Raw.{Name, RawStatement};
ghost use Rattle.tptp_reader.specs.Limits.{IsWithinLimits};
ghost use Rattle.tptp_reader.specs.View.{statement_tree};
ghost use Rattle.tptp_include.specs.Gathering.{Gathers, Gives, IsGathered, most_bytes};
ghost use Rattle.tptp_include.specs.Outcomes.{outcome_told, placed_of};

use crate::file_name::FileName;
use crate::gathered::GatheredStatement;
use crate::opening::open_file;
use crate::reading::next_statement;
use crate::refusal::GatherRefusal;
use crate::selection::keep;
use std::alloc::{AllocError, Global};
use tptp_reader::{Body, Read, Statement, Text, Texts};
use zm_base::Library;

// What leads to a file, and what was read so far.
#[derive(Drop)]
pub(crate) struct Reached {
    // The names of the files from the first one on to the file itself.
    pub path: Vec<FileName>,
    // The number of bytes of all files.
    pub count: usize,
}

impl Reached {
    // Goes on to a file of so many bytes.
    fn enter(&mut self, name: FileName, len: usize) -> Result<(), AllocError>
        requires { self.old.count + len ≤ most_bytes }
        ensures count { OnOk result (self.new.count ≡ self.old.count + len) }
        ensures path { OnOk result (self.new.path.items ≡ self.old.path.items ++ name ∷ []) }
    {
        self.path.push(name)?;
        self.count += len;
        Ok(())
    }
}

// The list of one statement.
fn single(
    alloc: Global,
    name: &FileName,
    statement: Statement,
) -> Result<Vec<GatheredStatement>, AllocError>
    ensures { IfOk result (λ list. list.items ≡ record { file = name.now; statement = statement } ∷ []) }
{
    let file = name.share()?;
    let mut list = Vec::new(alloc);
    list.push(GatheredStatement { file, statement })?;
    Ok(list)
}

// Gathers the statements of the file to which `reached` leads.
#[cycle(gathering)]
pub(crate) fn gather_file<L: Library>(
    alloc: Global,
    library: &mut L,
    reached: &mut Reached,
    name: &FileName,
    bytes: &[u8],
) -> Result<Vec<GatheredStatement>, GatherRefusal>
    requires { reached.old.count ≤ most_bytes }
    ensures told { (fs : List NamedFile) → L.files library.old ≡ Some fs →
        IfSome (outcome_told result reached.new.count)
        (Gathers fs reached.old.path.items name.now bytes.now 0 reached.old.count) }
    ensures gathered { IfOk result (λ list. AllByRecursion IsGathered (map placed_of list.items)) }
    ensures reached { OnOk result
        ((reached.new.count ≤ most_bytes) × (reached.new.path.items ≡ reached.old.path.items)) }
    ensures files { L.files library.new ≡ L.files library.old }
    ensures later { L.faults library.old ≤ L.faults library.new }
    ensures failed { result ≡ Err GatherRefusal.LibraryFault →
        Rose (L.faults library.old) (L.faults library.new) }
{
    let mut list = Vec::new(alloc);
    let mut at = 0;
    loop {
        let (statement, after) = match next_statement(alloc, name, bytes, at)? {
            Read::End => return Ok(list),
            Read::Statement(statement, after) => (statement, after),
        };
        let mut more = gather_statement(alloc, library, reached, name, statement)?;
        list.append(&mut more)?;
        at = after;
    }
}

// Gathers what one statement of a file gives: itself, or what an include keeps of its file.
#[cycle(gathering)]
fn gather_statement<L: Library>(
    alloc: Global,
    library: &mut L,
    reached: &mut Reached,
    name: &FileName,
    statement: Statement,
) -> Result<Vec<GatheredStatement>, GatherRefusal>
    requires count { reached.old.count ≤ most_bytes }
    requires limits { IsWithinLimits (statement_tree statement) }
    ensures told { (fs : List NamedFile) → L.files library.old ≡ Some fs →
        IfSome (outcome_told result reached.new.count)
        (Gives fs reached.old.path.items name.now statement.at reached.old.count (statement_tree statement)) }
    ensures gathered { IfOk result (λ list. AllByRecursion IsGathered (map placed_of list.items)) }
    ensures reached { OnOk result
        ((reached.new.count ≤ most_bytes) × (reached.new.path.items ≡ reached.old.path.items)) }
    ensures files { L.files library.new ≡ L.files library.old }
    ensures later { L.faults library.old ≤ L.faults library.new }
    ensures failed { result ≡ Err GatherRefusal.LibraryFault →
        Rose (L.faults library.old) (L.faults library.new) }
{
    if let Body::Include { file, names } = &statement.body {
        return gather_include(alloc, library, reached, file, names);
    }
    Ok(single(alloc, name, statement)?)
}

// Gathers what an include keeps of its file.
#[cycle(gathering)]
fn gather_include<L: Library>(
    alloc: Global,
    library: &mut L,
    reached: &mut Reached,
    file: &Text,
    names: &Option<Texts>,
) -> Result<Vec<GatheredStatement>, GatherRefusal>
    requires { reached.old.count ≤ most_bytes }
    ensures told { (fs : List NamedFile) (name : Name) (at : ℕ) → L.files library.old ≡ Some fs →
        IfSome (outcome_told result reached.new.count) (Gives fs reached.old.path.items name at
        reached.old.count (RawStatement.inclusion file.now names.now)) }
    ensures gathered { IfOk result (λ list. AllByRecursion IsGathered (map placed_of list.items)) }
    ensures reached { OnOk result
        ((reached.new.count ≤ most_bytes) × (reached.new.path.items ≡ reached.old.path.items)) }
    ensures files { L.files library.new ≡ L.files library.old }
    ensures later { L.faults library.old ≤ L.faults library.new }
    ensures failed { result ≡ Err GatherRefusal.LibraryFault →
        Rose (L.faults library.old) (L.faults library.new) }
{
    let bytes = open_file(alloc, library, &reached.path, file.text(), reached.count)?;
    let name = FileName::of(alloc, file.text())?;
    reached.enter(name.share()?, bytes.len())?;
    let list = gather_file(alloc, library, reached, &name, &bytes)?;
    reached.path.pop();
    keep(alloc, list, names)
}
