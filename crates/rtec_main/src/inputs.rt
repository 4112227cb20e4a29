// The description: it is read to its end and refused by one answer, or it has its program.
ghost use Rattle.std.specs.Prelude.{◌≡◌, ◌≤◌, ℕ, true, List, IfOk, IfErr, IfSome};
ghost use Rattle.rtec_main.specs.Reads.{IsDescriptionOf, IsSoundDescription, IsDescriptionRefused};
ghost use Rattle.rtec_main.specs.Reads.{has_described_limit, IsWhyNoDescription};

use crate::reads::{Unread, read_all};
use domain_decl::{Checked, DeclRefused, check};
use ground_rules::{GroundRefused, ground};
use ground_types::Program;
use rt_base::{Inputs, Limit};
use rule_read::{ReadRefused, Syntax, read};
use run_status::{DescFault, Status};
use std::alloc::Global;
use strata_check::{LayerList, StrataRefused, layers};

// The most bytes of a description.
const LONGEST_DESCRIPTION: usize = 1_048_576;

/// A description that is accepted and within the limits.
#[derive(Drop)]
pub struct Description {
    /// Its statements.
    pub syntax: Syntax,
    /// What they declare.
    pub checked: Checked,
    /// The layers of its names.
    pub layers: LayerList,
    /// Its program.
    pub program: Program,
}

impl Description {
    /// Its program alone. The statements and what they declare are let go.
    pub fn into_program(self) -> Program
        ensures { result ≡ self.program }
    {
        let Description {
            program,
            syntax: _,
            checked: _,
            layers: _,
        } = self;
        program
    }
}

/// Why a description is not taken.
#[derive(Clone, Copy, Debug, PartialEq, Eq)]
pub enum DescriptionRefused {
    /// The count of its faults rose.
    Fault,
    /// It has more than 1,048,576 bytes.
    TooLong,
    /// It is not accepted.
    Faulty(DescFault),
    /// It exceeds a limit.
    Exceeds(Limit),
    /// Memory ran out.
    OutOfMemory,
}

impl From<Unread> for DescriptionRefused {
    ghost use Rattle.rtec_main.specs.Reads.{unread_description};

    ghost from_gives = { λ unread refused. refused ≡ unread_description unread };

    fn from(unread: Unread) -> DescriptionRefused {
        match unread {
            Unread::Fault => DescriptionRefused::Fault,
            Unread::TooLong => DescriptionRefused::TooLong,
            Unread::OutOfMemory => DescriptionRefused::OutOfMemory,
        }
    }
}

impl From<ReadRefused> for DescriptionRefused {
    ghost use Rattle.rtec_main.specs.Reads.{unread_text};

    ghost from_gives = { λ read refused. refused ≡ unread_text read };

    fn from(refused: ReadRefused) -> DescriptionRefused {
        match refused {
            ReadRefused::TooLong => DescriptionRefused::TooLong,
            ReadRefused::BadByte { line } => DescriptionRefused::Faulty(DescFault::BadByte {
                line,
            }),
            ReadRefused::BadStatement { line } => {
                DescriptionRefused::Faulty(DescFault::BadStatement { line })
            }
            ReadRefused::OutOfMemory => DescriptionRefused::OutOfMemory,
        }
    }
}

impl From<DeclRefused> for DescriptionRefused {
    ghost use Rattle.rtec_main.specs.Reads.{unaccepted};

    ghost from_gives = { λ declared refused. refused ≡ unaccepted declared };

    fn from(refused: DeclRefused) -> DescriptionRefused {
        let fault = match refused {
            DeclRefused::BadPlan => DescFault::BadPlan,
            DeclRefused::TooMany { line } => DescFault::TooMany { line },
            DeclRefused::Undeclared { line } => DescFault::Undeclared { line },
            DeclRefused::Twice { line } => DescFault::Twice { line },
            DeclRefused::NoTrigger { line } => DescFault::NoTrigger { line },
            DeclRefused::WrongKind { line } => DescFault::WrongKind { line },
            DeclRefused::Arity { line } => DescFault::Arity { line },
            DeclRefused::Clash { line } => DescFault::Clash { line },
            DeclRefused::Loose { line } => DescFault::Loose { line },
            DeclRefused::OutOfMemory => return DescriptionRefused::OutOfMemory,
        };
        DescriptionRefused::Faulty(fault)
    }
}

impl From<StrataRefused> for DescriptionRefused {
    ghost use Rattle.rtec_main.specs.Reads.{unlayered};

    ghost from_gives = { λ strata refused. refused ≡ unlayered strata };

    fn from(refused: StrataRefused) -> DescriptionRefused {
        match refused {
            StrataRefused::Cyclic { line, .. } => {
                DescriptionRefused::Faulty(DescFault::Cyclic { line })
            }
            StrataRefused::OutOfMemory => DescriptionRefused::OutOfMemory,
        }
    }
}

impl From<GroundRefused> for DescriptionRefused {
    ghost use Rattle.rtec_main.specs.Reads.{ungrounded};

    ghost from_gives = { λ grounding refused. refused ≡ ungrounded grounding };

    fn from(refused: GroundRefused) -> DescriptionRefused {
        match refused {
            GroundRefused::TooLarge { limit } => DescriptionRefused::Exceeds(limit),
            GroundRefused::OutOfMemory => DescriptionRefused::OutOfMemory,
        }
    }
}

impl From<DescriptionRefused> for Status {
    ghost use Rattle.rtec_main.specs.Reads.{description_status};

    ghost from_gives = { λ refused status. status ≡ description_status refused };

    fn from(refused: DescriptionRefused) -> Status {
        match refused {
            DescriptionRefused::Fault => Status::ReadFault { input: 0 },
            DescriptionRefused::TooLong => Status::TooLarge {
                limit: Limit::Description,
            },
            DescriptionRefused::Faulty(fault) => Status::BadDescription(fault),
            DescriptionRefused::Exceeds(limit) => Status::TooLarge { limit },
            DescriptionRefused::OutOfMemory => Status::OutOfMemory,
        }
    }
}

// The description that these bytes are.
fn description_of(alloc: Global, text: &[u8]) -> Result<Description, DescriptionRefused>
    ensures ok { IfOk result (IsDescriptionOf text.now) }
    ensures sound { IfOk result IsSoundDescription }
    ensures err { IfErr result (IsDescriptionRefused text.now) }
    ensures limit { IfErr result (λ refused. has_described_limit refused ≡ true) }
{
    let syntax = read(alloc, text)?;
    let checked = check(alloc, &syntax)?;
    let layers = layers(alloc, &checked)?;
    let program = ground(alloc, &checked, &layers)?;
    Ok(Description {
        syntax,
        checked,
        layers,
        program,
    })
}

/// The description of this name, which is read to its end.
pub fn read_description<I: Inputs>(
    alloc: Global,
    inputs: &mut I,
    name: &str,
) -> Result<Description, DescriptionRefused>
    ensures sound { IfOk result IsSoundDescription }
    ensures ok { IfOk result (λ found. IfSome (I.bytes inputs.old name.now)
        (λ text. IsDescriptionOf text found)) }
    ensures err { IfErr result (IsWhyNoDescription (I.bytes inputs.old name.now)
        (I.faults inputs.old name.now) (I.faults inputs.new name.now)) }
    ensures limit { IfErr result (λ refused. has_described_limit refused ≡ true) }
    ensures same { (other : List ℕ) → I.bytes inputs.new other ≡ I.bytes inputs.old other }
    ensures later { (other : List ℕ) → I.faults inputs.old other ≤ I.faults inputs.new other }
{
    let text = read_all(alloc, inputs, name, LONGEST_DESCRIPTION)?;
    description_of(alloc, &text)
}
