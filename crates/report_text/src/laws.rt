// Laws of the definitions.
ghost use Rattle.std.specs.Prelude.{◌≡◌, ◌≤◌, ℕ, List, ◌++◌, map};
ghost use Rattle.ground_types.specs.History.{IsLegal, seals};
ghost use Rattle.ground_types.specs.Publication.{publication};
ghost use Rattle.ground_types.specs.Touched.{evaluations};
ghost use Rattle.ground_types.specs.declared.plan.Plan.{Plan};
ghost use Rattle.ground_types.specs.declared.entries.Command.{Command};
ghost use Rattle.ground_types.specs.declared.entries.Entry.{Entry};
ghost use Rattle.ground_types.specs.declared.program.Program.{Program};
ghost use Rattle.ground_types.specs.declared.entries.Query.{Query};
ghost use Rattle.query_ask.specs.Right.{Parts};
ghost use Rattle.query_ask.specs.Answers.{said, answered, AreOfProgram};
ghost use Rattle.report_text.specs.Report.{history_after, history_of, block_lines, command_lines};
ghost use Rattle.report_text.specs.Report.{end_lines, answer_lines, ask_lines};
ghost use Rattle.report_text.specs.Printed.{rows_in, block_in, block_at, end_of, AreOf};

/// The history that is made of any commands is legal, where at most as many of them as there are
/// queries are seals.
pub fn made_history_is_legal()
    ensures { (plan : Plan) (commands : List Command) → seals (history_of plan commands)
        ≤ plan.queries → IsLegal plan (history_of plan commands) }
{}

/// The lines of commands are those of the first ones, and then those of the others after the
/// history that the first ones make.
pub fn commands_law()
    ensures history { (plan : Plan) (before : List Entry) (first others : List Command) →
        history_after plan before (first ++ others)
        ≡ history_after plan (history_after plan before first) others }
    ensures lines { (program : Program) (before : List Entry) (first others : List Command) →
        command_lines program before (first ++ others)
        ≡ command_lines program before first
        ++ command_lines program (history_after program.plan before first) others }
{}

/// The block of a publication whose number, rows and evaluations are those of a seal is the block
/// of that seal.
pub fn block_law()
    ensures { (history : List Entry) (parts : Parts) →
        rows_in parts ≡ (publication parts.program history parts.number).rows →
        parts.evaluations ≡ evaluations parts.program history parts.number →
        block_in parts ≡ block_lines parts.program history parts.number }
{}

/// Where publications are those of a history, one for each of its seals, the lines of an answer are
/// those of the report.
pub fn answer_law()
    ensures { (program : Program) (history : List Entry) (list : List Parts) (asked : Query) →
        AreOf program history list → AreOfProgram program list →
        answer_lines program (block_at list) asked (answered program.plan (map said list) asked)
        ≡ ask_lines program history asked }
{}

/// Where publications are those of a history, one for each of its seals, the last three lines are
/// those of the report.
pub fn end_law()
    ensures { (program : Program) (history : List Entry) (ignored : ℕ) (list : List Parts) →
        AreOf program history list →
        end_of history ignored list ≡ end_lines program history ignored }
{}
