// A program as text: what stands first, then a line for each layer and each unit.
use ground_types::{Cond, Expr, Program, Rule, Trigger, Unit, UnitKind, What};
use std::alloc::{AllocError, Global};
use std::fmt::Write;

// The start or the end of a value of a unit, as `start 5=1`, and events by their numbers.
fn put_trigger(out: &mut String, trigger: Trigger) -> Result<(), AllocError> {
    match trigger {
        Trigger::Event(event) => write!(out, "event {event}"),
        Trigger::Derived(unit) => write!(out, "derived {unit}"),
        Trigger::Start(unit, value) => write!(out, "start {unit}={value}"),
        Trigger::End(unit, value) => write!(out, "end {unit}={value}"),
    }
}

// A condition behind a comma, with `not` before its contrary.
fn put_condition(out: &mut String, cond: Cond) -> Result<(), AllocError> {
    out.push_str(if cond.positive { ", " } else { ", not " })?;
    match cond.what {
        What::Happens(trigger) => put_trigger(out, trigger),
        What::Holds(unit, value) => write!(out, "holds {unit}={value}"),
    }
}

// The value that a rule is for, its trigger and its conditions.
fn put_rule(out: &mut String, sign: &str, rule: &Rule) -> Result<(), AllocError> {
    let value = rule.value;
    write!(out, " {sign}{value} ")?;
    put_trigger(out, rule.trigger)?;
    for cond in rule.conds.as_slice() {
        put_condition(out, *cond)?;
    }
    Ok(())
}

// Rules one behind the other.
fn put_rules(out: &mut String, sign: &str, rules: &[Rule]) -> Result<(), AllocError> {
    for rule in rules {
        put_rule(out, sign, rule)?;
    }
    Ok(())
}

// An expression: a fluent-value as `5=1`, and `and(`, `or(` or `but(` before members.
#[cycle(show)]
fn put_expr(out: &mut String, expr: &Expr) -> Result<(), AllocError> {
    match expr {
        Expr::Row(unit, value) => write!(out, " {unit}={value}"),
        Expr::Union(members) => put_members(out, " or(", members),
        Expr::Intersect(members) => put_members(out, " and(", members),
        Expr::Complement(first, others) => {
            put_expr(out, first)?;
            put_members(out, " but(", others)
        }
    }
}

// Members up to the bracket that closes them.
#[cycle(show)]
fn put_members(out: &mut String, open: &str, members: &[Expr]) -> Result<(), AllocError> {
    out.push_str(open)?;
    for member in members {
        put_expr(out, member)?;
    }
    out.push_str(" )")
}

// Expressions one behind the other.
fn put_exprs(out: &mut String, exprs: &[Expr]) -> Result<(), AllocError> {
    for expr in exprs {
        put_expr(out, expr)?;
    }
    Ok(())
}

// The value that a fluent begins with, if there is one.
fn put_initial(out: &mut String, initially: Option<u32>) -> Result<(), AllocError> {
    match initially {
        Some(value) => write!(out, " first {value}"),
        None => Ok(()),
    }
}

// What defines a unit.
fn put_kind(out: &mut String, kind: &UnitKind) -> Result<(), AllocError> {
    match kind {
        UnitKind::Simple {
            initially,
            initiate,
            terminate,
        } => {
            put_initial(out, *initially)?;
            put_rules(out, "+", initiate.as_slice())?;
            put_rules(out, "-", terminate.as_slice())
        }
        UnitKind::Static(exprs) => put_exprs(out, exprs.as_slice()),
        UnitKind::Derived(rules) => put_rules(out, "*", rules.as_slice()),
    }
}

// Numbers, each behind a space.
pub(crate) fn put_numbers(out: &mut String, numbers: &[u32]) -> Result<(), AllocError> {
    for number in numbers {
        write!(out, " {number}")?;
    }
    Ok(())
}

// A line for a unit.
fn put_unit(out: &mut String, unit: &Unit) -> Result<(), AllocError> {
    let name = unit.name;
    write!(out, "\n {name} of")?;
    put_numbers(out, unit.args.as_slice())?;
    put_kind(out, &unit.kind)
}

// The number of events, and the first event or unit of each name.
fn put_names(out: &mut String, program: &Program) -> Result<(), AllocError> {
    let events = program.events;
    write!(out, "events {events} from")?;
    for name in program.names.as_slice() {
        put_numbers(out, &[name.first])?;
    }
    Ok(())
}

// A line for each layer.
fn put_layers(out: &mut String, program: &Program) -> Result<(), AllocError> {
    for layer in program.layers.as_slice() {
        out.push_str("\nlayer")?;
        put_numbers(out, layer.as_slice())?;
    }
    Ok(())
}

// The lines of all units.
fn put_units(out: &mut String, units: &[Unit]) -> Result<(), AllocError> {
    for unit in units {
        put_unit(out, unit)?;
    }
    Ok(())
}

// The number of events and each name's first event or unit; the units of each layer; and for each
// unit its name, its arguments, and its first value, rules or expressions: `+1` initiates value 1,
// `-1` terminates it, and `*0` is a rule of a derived event.
pub(crate) fn show(alloc: Global, program: &Program) -> Result<String, AllocError> {
    let mut out = String::new(alloc);
    put_names(&mut out, program)?;
    put_layers(&mut out, program)?;
    put_units(&mut out, program.units.as_slice())?;
    Ok(out)
}
