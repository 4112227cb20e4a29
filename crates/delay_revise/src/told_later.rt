// Laws of the definitions: what is published stays as it is.
ghost use Rattle.std.specs.Prelude.{◌++◌, ℕ, List};
ghost use Rattle.ground_types.specs.declared.entries.Entry.{Entry};
ghost use Rattle.ground_types.specs.declared.program.Program.{Program};
ghost use Rattle.query_ask.specs.Right.{Parts};
ghost use Rattle.delay_revise.specs.Revising.{IsPublished};

/// What is published of a query of a history stays so whatever is told later.
pub fn published_stays()
    ensures { (program : Program) (before more : List Entry) (k : ℕ) (parts : Parts)
        → IsPublished program before k parts → IsPublished program (before ++ more) k parts }
{}
