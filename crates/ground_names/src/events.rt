// The words of a ground input event.
ghost use Rattle.std.specs.Prelude.{◌≡◌, ◌≤◌, true, map, slice_get, option_map, option_and_then};
ghost use Rattle.std.specs.Prelude.{option_copied, IfOk, IfSome};
ghost use Rattle.std.specs.List.{list_all};
ghost use Rattle.std.specs.List.Sorted.{IsNonDecreasingBy};
ghost use Rattle.ground_types.specs.Sound.{IsSound};
ghost use Rattle.decl_known.specs.Sound.{is_sound_domain};
ghost use Rattle.ground_names.specs.Counted.{has_small_numbers};
ghost use Rattle.ground_names.specs.EventAtoms.{event_atoms};
ghost use Rattle.ground_names.specs.EventNames.{inputs, head_at, IsSplit};

use crate::lists::{arguments_at, count_arguments};
use ground_types::{EventId, Name, Program, is_input};
use rt_base::OutOfMemory;
use std::alloc::Global;
use std::marker::Model;

/// The input names of a program, made once, in which the name of a ground input event is found by
/// halves. Contracts see the program. It borrows the program and copies no word.
#[derive(Drop)]
pub struct EventNames<'a> {
    program: &'a Program,
    // The names of input events, in their order.
    names: Vec<&'a Name>,
}

impl<'a> Model for EventNames<'a> {
    ghost use Rattle.std.specs.Prelude.{◌≡◌, true, map};
    ghost use Rattle.std.specs.List.{list_all};
    ghost use Rattle.std.specs.Coded.{codes};
    ghost use Rattle.ground_types.specs.Sound.{are_numbered};
    ghost use Rattle.ground_types.specs.declared.program.Program.{Program};
    ghost use Rattle.ground_types.specs.contracts.program.Program as programs;
    ghost use Rattle.decl_known.specs.Sound.{is_sound_domain};
    ghost use Rattle.ground_names.specs.Counted.{has_small_numbers};
    ghost use Rattle.ground_names.specs.EventNames.{inputs};

    ghost Value = { Program };

    ghost coded = { Prim.hlevel (codes, programs.the_row.coded) };

    ghost view = { λ e. e.program.now };

    ghost invariant = { λ e. (are_numbered e.program.now 0 0 e.program.now.names ≡ true)
        × (list_all (has_small_numbers e.program.now.domains) e.program.now.names ≡ true)
        × (list_all is_sound_domain e.program.now.domains ≡ true)
        × (map (λ name. name.now) e.names.items ≡ inputs e.program.now.names) };
}

// The names of input events, in their order.
fn inputs(alloc: Global, names: &[Name]) -> Result<Vec<&Name>, OutOfMemory>
    ensures { IfOk result (λ found. map (λ name. name.now) found.items ≡ inputs names.now) }
{
    let mut inputs = Vec::new(alloc);
    for name in names {
        if is_input(name.kind) {
            inputs.push(name)?;
        }
    }
    Ok(inputs)
}

// How many of the names begin at this event or before it. The search goes by halves.
fn begun(names: &[&Name], event: EventId) -> usize
    requires { IsNonDecreasingBy (λ name. name.first) (map (λ name. name.now) names.now) }
    ensures { IsSplit event (map (λ name. name.now) names.now) result }
{
    names.partition_point(|name| name.first <= event)
}

// The name at a place.
fn name_at<'a>(names: &[&'a Name], place: usize) -> Option<&'a Name>
    ensures { option_copied result ≡ slice_get (map (λ name. name.now) names.now) place }
{
    names.get(place).copied()
}

impl<'a> EventNames<'a> {
    /// The table of a program. The domains have to be such as `check` gives, with at most 4,096
    /// entities each. It walks through the names once.
    pub fn new(alloc: Global, program: &'a Program) -> Result<EventNames<'a>, OutOfMemory>
        requires sound { IsSound program.now }
        requires domains { list_all is_sound_domain program.now.domains ≡ true }
        ensures { IfOk result (λ names. names ≡ program.now) }
    {
        let names = inputs(alloc, program.names.as_slice())?;
        Ok(EventNames { program, names })
    }

    // The last input name whose events begin at this one or before it. It takes no memory.
    fn name_before(&self, event: EventId) -> Option<&'a Name>
        ensures found { slice_get (event_atoms self.now) event
            ≡ option_and_then (head_at self.now.domains event) (option_copied result) }
        ensures before { IfSome result (λ name. name.now.first ≤ event) }
        ensures small { IfSome result (λ name. has_small_numbers self.now.domains name.now ≡ true) }
        ensures domains { list_all is_sound_domain self.now.domains ≡ true }
    {
        let names = self.names.as_slice();
        let count = begun(names, event);
        if count == 0 {
            return None;
        }
        name_at(names, count - 1)
    }

    /// The program that it was made of. It takes no memory.
    pub fn program(&self) -> &'a Program
        ensures { result.now ≡ self.now }
    {
        self.program
    }

    /// The name of a ground input event, and in place of what the list had the numbers of its
    /// arguments' entities; None where there is no event of this number. The search goes by halves,
    /// and takes memory only where the list has less room than there are arguments.
    pub fn event_at(
        &self,
        event: EventId,
        args: &mut Vec<u32>,
    ) -> Result<Option<&'a Name>, OutOfMemory>
        ensures { IfOk result (λ found. option_map (λ name. (name.now, args.new.items)) found
            ≡ slice_get (event_atoms self.now) event) }
    {
        let Some(name) = self.name_before(event) else {
            return Ok(None);
        };
        let place = event - name.first;
        let domains = self.program.domains.as_slice();
        if (place as u64) < count_arguments(domains, name.args.as_slice()) {
            arguments_at(domains, name.args.as_slice(), place, args)?;
            Ok(Some(name))
        } else {
            Ok(None)
        }
    }
}
