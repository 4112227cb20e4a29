// What follows from the definition.
ghost use Rattle.std.specs.Prelude.{List};
ghost use Rattle.system_core.specs.Core.{Core, core_after, SeenMost, SeesMore};
ghost use Rattle.system_core.specs.declared.steps.Step.{Step};

/// Whatever steps are done, no reader's count of publications falls, and none passes how many
/// there are.
pub fn readers_see_more()
    ensures { (core : Core) (steps : List Step) → SeenMost core
        → SeesMore core (core_after core steps) }
{}
