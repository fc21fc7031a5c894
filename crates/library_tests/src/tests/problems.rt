// Problems of the tests, from their text.
use std::alloc::Global;
use std::test::Fail;
use tff_typing::type_problem;
use tptp_include::gather;
use zm_base::QuietLibrary;
use zm_logic::TypedProblem;

// The problem that the text spells, without includes.
pub(crate) fn typed(alloc: Global, text: &str) -> Result<TypedProblem, Fail> {
    let mut library = QuietLibrary::new(Vec::new(alloc));
    if text.len() > 16_777_216 {
        return Err(Fail::new("too large"));
    }
    let Ok(gathered) = gather(alloc, &mut library, "-", text.as_bytes()) else {
        return Err(Fail::new("not gathered"));
    };
    match type_problem(alloc, &gathered) {
        Ok(problem) => Ok(problem),
        Err(_) => Err(Fail::new("not typed")),
    }
}
