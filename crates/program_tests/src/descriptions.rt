// The programs of descriptions.
ghost use Rattle.std.specs.Prelude.{IfOk};
ghost use Rattle.ground_types.specs.Sound.{IsSound};

use domain_decl::check;
use ground_rules::{GroundRefused, ground};
use ground_types::Program;
use rule_read::read;
use std::alloc::Global;
use std::test::Fail;
use strata_check::layers;

// The program of a text that means something, or the limit that it exceeds.
pub(crate) fn grounding(alloc: Global, text: &str) -> Result<Result<Program, GroundRefused>, Fail>
    ensures { IfOk result (λ answer. IfOk answer IsSound) }
{
    let syntax = read(alloc, text.as_bytes())?;
    let checked = check(alloc, &syntax)?;
    let list = layers(alloc, &checked)?;
    Ok(ground(alloc, &checked, &list))
}

// The program of a text that has one.
pub(crate) fn program_of(alloc: Global, text: &str) -> Result<Program, Fail>
    ensures { IfOk result IsSound }
{
    match grounding(alloc, text)? {
        Ok(program) => Ok(program),
        Err(_) => Err(Fail::new("a limit is exceeded")),
    }
}
