// The layers of the names of a description.
ghost use Rattle.std.specs.Prelude.{◌≡◌, ℕ, length, map, IfOk, Some, Err};
ghost use Rattle.ground_types.specs.declared.program.Name.{Name};
ghost use Rattle.rule_forms.specs.Forms.{PlainStatement, plain};
ghost use Rattle.decl_known.specs.Sound.{IsSound};
ghost use Rattle.strata_check.specs.declared.layering.StrataRefused.TheVariants.{Cyclic};
ghost use Rattle.decl_known.specs.Occurrences.{NoneBefore, IsFirstCycle};
ghost use Rattle.decl_known.specs.Layers.{IsLayering};
ghost use Rattle.strata_check.specs.Rows.{AreInside, AreRows, HasCircle, IsFirstCircle};
ghost use Rattle.strata_check.specs.Walks.{layer_by_mark};

use crate::ranks::ranks;
use crate::reach::leads_to_itself;
use crate::row::Row;
use crate::rows::rows_of;
use crate::ties::first_tied;
use crate::walk::{Graph, Mark, walk};
use decl_known::{Checked, Known, LayerList};
use rt_base::{List, OutOfMemory};
use std::alloc::Global;

/// Why there are no layers.
#[derive(Clone, Copy, Debug, PartialEq, Eq)]
pub enum StrataRefused {
    /// A name reaches itself along "occurs in a body of": the place of the first declared such
    /// name, from 0, and the line of its declaration.
    Cyclic { name: u32, line: u32 },
    /// Memory ran out. No clause ties this answer to a refused growth.
    OutOfMemory,
}

impl From<OutOfMemory> for StrataRefused {
    ghost use Rattle.std.specs.Prelude.{◌≡◌};
    ghost use Rattle.strata_check.specs.declared.layering.StrataRefused.TheVariants.{OutOfMemory};

    ghost from_gives = { λ _ e. e ≡ OutOfMemory };

    fn from(_: OutOfMemory) -> StrataRefused {
        StrataRefused::OutOfMemory
    }
}

// The rows of the names of a description.
fn rows_of_names(alloc: Global, checked: &Checked) -> Result<Vec<Row>, OutOfMemory>
    requires { IsSound checked.now }
    ensures { IfOk result (λ rows. AreRows (map plain checked.now.rules) checked.now.names
        rows.items) }
{
    let domains = checked.domains.as_slice();
    let names = checked.names.as_slice();
    let known = Known::new(alloc, domains, names)?;
    rows_of(alloc, &known, checked.rules.as_slice())
}

fn layer_of(mark: &Mark) -> u32
    ensures { result ≡ layer_by_mark (Some mark.now) }
{
    match mark {
        Mark::Done { layer } => *layer,
        _ => 0,
    }
}

// The layers that were given to names, 0 where there is none.
fn layers_of(alloc: Global, marks: &[Mark]) -> Result<List<u32>, OutOfMemory>
    ensures { IfOk result (λ list. list ≡ map (λ mark. layer_by_mark (Some mark)) marks.now) }
{
    let mut list = Vec::with_capacity(alloc, marks.len())?;
    for mark in marks {
        list.push(layer_of(mark))?;
    }
    Ok(List::of(list))
}

// The first place that leads to itself, by a search from each up to it. It takes that time for
// each, and makes the answer of `first_circle` right whatever the ranks are.
fn first_circle_by_search(alloc: Global, rows: &[Row]) -> Result<usize, OutOfMemory>
    requires inside { AreInside rows.now }
    requires circle { HasCircle rows.now }
    ensures { IfOk result (λ place. IsFirstCircle rows.now place) }
{
    for place in 0..rows.len() {
        if leads_to_itself(alloc, rows, place)? {
            return Ok(place);
        }
    }
    unreachable!()
}

// The first place that leads to itself: the first that is tied by ranks, once a search from it has
// shown that it does.
fn first_circle(alloc: Global, rows: &[Row]) -> Result<usize, OutOfMemory>
    requires inside { AreInside rows.now }
    requires circle { HasCircle rows.now }
    ensures { IfOk result (λ place. IsFirstCircle rows.now place) }
{
    let ranks = ranks(alloc, rows)?;
    if let Some(place) = first_tied(rows, ranks.as_slice()) {
        if leads_to_itself(alloc, rows, place)? {
            return Ok(place);
        }
    }
    first_circle_by_search(alloc, rows)
}

/// The layers of the names: 0 for an input event, and for another name one more than the greatest
/// layer of a name in its bodies. Cyclic comes exactly where some declared name reaches itself
/// along "occurs in a body of". The time is linear in the number of names and in that of the names
/// in bodies, for layers and for a refusal. (A slow search for the name that is refused stands
/// behind a check that passes where names are ranked by the cycles that they are on.)
pub fn layers(alloc: Global, checked: &Checked) -> Result<LayerList, StrataRefused>
    requires { IsSound checked.now }
    ensures layers { IfOk result (λ list. IsLayering (map plain checked.now.rules)
        checked.now.names list.of_name) }
    ensures none { IfOk result (λ list. NoneBefore (map plain checked.now.rules) checked.now.names
        (length checked.now.names)) }
    ensures cyclic { (place line : ℕ) → result ≡ Err (Cyclic place line)
        → IsFirstCycle (map plain checked.now.rules) checked.now.names place line }
{
    let names = checked.names.as_slice();
    let list = rows_of_names(alloc, checked)?;
    let rows = list.as_slice();
    let graph = Graph { names, rows };
    match walk(alloc, &graph)? {
        Some(marks) => Ok(LayerList {
            of_name: layers_of(alloc, marks.as_slice())?,
        }),
        None => {
            let place = first_circle(alloc, rows)?;
            Err(StrataRefused::Cyclic {
                name: place as u32,
                line: names[place].line,
            })
        }
    }
}
