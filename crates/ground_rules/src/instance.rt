// A statement under an assignment: its atoms, conditions and expressions without variables.
ghost use Rattle.std.specs.Prelude.{◌≡◌, [], ◌++◌, true, map, filter_map, position};
ghost use Rattle.std.specs.Prelude.{option_map, option_to_list, IfOk};
ghost use Rattle.std.specs.Str.{bytes_eq};
ghost use Rattle.rule_forms.specs.Forms.{plain_form, plain_tree, conditions_of};
ghost use Rattle.ground_types.specs.Words.{declaration};
ghost use Rattle.ground_types.specs.Sound.{arguments_of};
ghost use Rattle.ground_names.specs.Numbers.{number_of};
ghost use Rattle.ground_names.specs.Counted.{capped, has_small_numbers};
ghost use Rattle.ground_rules.specs.Assignments.{entity_of, word_of, permits, is_permitted};
ghost use Rattle.ground_rules.specs.Atoms.{or_zero, ground_term, ground_args, ground_atom};
ghost use Rattle.ground_rules.specs.Atoms.{ground_value, event_by, ground_event, ground_condition};
ghost use Rattle.ground_rules.specs.Atoms.{ground_rule, head_unit, head_value, plain_expr};
ghost use Rattle.ground_rules.specs.Atoms.{ground_expression, Complement_is, all_of};
ghost use Rattle.ground_rules.specs.Grounded.{opening_by, expression_by};
ghost use Rattle.ground_rules.specs.Clauses.{clause_of};
ghost use Rattle.ground_rules.specs.LentInstances.{instance_of, rule_by, is_input_by};

use crate::clause::Clause;
use ground_names::{entity_count, next_place, place_in};
use ground_types::{Cond, Expr, Name, NameKind, Rule, Trigger, What, entity_word};
use rt_base::{List, OutOfMemory, Word};
use rule_forms::{Atom, Body, EventText, Form, Fv, Term, Tree, conditions_of};
use std::alloc::Global;

// A statement under an assignment, which has the number of an entity for each of its variables.
#[derive(Clone, Copy)]
pub(crate) struct Instance<'i, 'k, 'a> {
    pub clause: &'i Clause<'k, 'a>,
    pub assignment: &'i [u32],
}

// Which rules are asked for.
#[derive(Clone, Copy, Debug, PartialEq, Eq)]
pub(crate) enum Part {
    // `initiatedAt`.
    Initiation,
    // `terminatedAt`.
    Termination,
    // `happensAt`.
    Occurrence,
}

// A relative complement of an expression and others.
fn complement_expr(alloc: Global, first: Expr, others: Vec<Expr>) -> Result<Expr, OutOfMemory>
    ensures { IfOk result (λ expr. plain_expr expr ≡ Complement_is (plain_expr first)
        (all_of (map plain_expr others.items))) }
{
    let first = Box::new(alloc, first)?;
    Ok(Expr::Complement(first, others))
}

impl<'i, 'k, 'a> Instance<'i, 'k, 'a> {
    // The number of the entity that a variable stands for.
    fn entity(&self, variable: &Word) -> u32
        ensures { result ≡ entity_of (instance_of self.now) variable.now }
    {
        match self.clause.place(variable) {
            Some(place) => match self.assignment.get(place) {
                Some(entity) => *entity,
                None => 0,
            },
            None => 0,
        }
    }

    // The word of the entity that a variable stands for.
    pub(crate) fn word(&self, variable: &Word) -> &str
        ensures { result.now ≡ word_of (instance_of self.now) variable.now }
    {
        let domains = self.clause.known().domains;
        entity_word(domains, self.clause.domain(variable), self.entity(variable))
    }

    // Whether a condition that is `\=` compares two different words.
    fn permits(&self, body: &Body) -> bool
        ensures { result ≡ permits (instance_of self.now) body.now }
    {
        match body {
            Body::Unequal(x, y) => self.word(x) != self.word(y),
            _ => true,
        }
    }

    // Whether every `\=` compares two different words.
    pub(crate) fn is_permitted(&self) -> bool
        ensures { result ≡ is_permitted (instance_of self.now) }
    {
        conditions_of(self.clause.form())
            .iter()
            .all(|body| self.permits(body))
    }

    // The number of the entity that a term stands for at a place of this domain.
    fn term(&self, term: &Term, domain: u32) -> u32
        ensures { result ≡ ground_term (instance_of self.now) term.now domain }
    {
        match term {
            Term::Entity(word) => match self.clause.known().entity(domain, word) {
                Some(entity) => entity as u32,
                None => 0,
            },
            Term::Variable(word) => self.entity(word),
        }
    }

    // The place of these arguments among all of a name. Terms beyond its places are left out, as
    // `ground_args` has it.
    fn place(&self, name: &Name, terms: &[Term]) -> Option<u64>
        ensures { result ≡ option_map capped
            (position (bytes_eq (ground_args (instance_of self.now) name.now terms.now))
            (arguments_of (clause_of self.now.clause.now).domains name.now)) }
    {
        if terms.len() < name.args.as_slice().len() {
            return None;
        }
        let domains = self.clause.known().domains;
        let mut place = 0;
        for (term, domain) in terms.iter().zip(name.args.as_slice()) {
            let size = entity_count(domains, *domain);
            place = next_place(place, size, self.term(term, *domain))?;
        }
        Some(place)
    }

    // The number of the ground event or unit of a name with these arguments, 0 where they are none
    // of its.
    fn number(&self, name: &Name, terms: &[Term]) -> u32
        requires { has_small_numbers (clause_of self.now.clause.now).domains name.now ≡ true }
        ensures { result ≡ or_zero (number_of (clause_of self.now.clause.now).domains name.now
            (ground_args (instance_of self.now) name.now terms.now)) }
    {
        match self.place(name, terms) {
            Some(place) => name.first + place as u32,
            None => 0,
        }
    }

    // The number of the ground event or unit that an atom names.
    fn atom(&self, atom: &Atom) -> u32
        ensures { result ≡ ground_atom (instance_of self.now) atom.now }
    {
        match self.clause.known().declaration(&atom.name) {
            Some(name) => self.number(name, atom.args.as_slice()),
            None => 0,
        }
    }

    // The number of the value of a fluent-value.
    fn value(&self, fv: &Fv) -> u32
        ensures { result ≡ ground_value (instance_of self.now) fv.now }
    {
        match self.clause.known().declaration(&fv.atom.name) {
            Some(name) => match place_in(name.values.as_slice(), fv.value.as_str().as_bytes()) {
                Some(value) => value as u32,
                None => 0,
            },
            None => 0,
        }
    }

    // Whether an atom names an input event.
    fn names_input(&self, atom: &Atom) -> bool
        ensures { result ≡ is_input_by (declaration (clause_of self.now.clause.now).names
            atom.now.name) }
    {
        match self.clause.known().declaration(&atom.name) {
            Some(name) => matches!(name.kind, NameKind::Input),
            None => false,
        }
    }

    // What a condition on an event, or on the start or the end of a value, asks for.
    fn event(&self, event: &EventText) -> Trigger
        ensures { result ≡ ground_event (instance_of self.now) event.now }
    {
        match event {
            EventText::Plain(atom) => {
                if self.names_input(atom) {
                    Trigger::Event(self.atom(atom))
                } else {
                    Trigger::Derived(self.atom(atom))
                }
            }
            EventText::Start(fv) => Trigger::Start(self.atom(&fv.atom), self.value(fv)),
            EventText::End(fv) => Trigger::End(self.atom(&fv.atom), self.value(fv)),
        }
    }

    // The condition without variables; None for `\=`.
    fn condition(&self, body: &Body) -> Option<Cond>
        ensures { result ≡ ground_condition (instance_of self.now) body.now }
    {
        match body {
            Body::Happens { positive, event } => Some(Cond {
                positive: *positive,
                what: What::Happens(self.event(event)),
            }),
            Body::Holds { positive, fv } => Some(Cond {
                positive: *positive,
                what: What::Holds(self.atom(&fv.atom), self.value(fv)),
            }),
            Body::Unequal(..) => None,
        }
    }

    // Adds a condition without variables, and nothing for `\=`.
    fn add_condition(&self, body: &Body, into: &mut Vec<Cond>) -> Result<(), OutOfMemory>
        ensures { IfOk result (λ _. into.new.items ≡ into.old.items ++ option_to_list
            (ground_condition (instance_of self.now) body.now)) }
    {
        match self.condition(body) {
            Some(cond) => into.push(cond)?,
            None => {}
        }
        Ok(())
    }

    // The conditions without variables.
    fn conditions(&self, alloc: Global, bodies: &[Body]) -> Result<List<Cond>, OutOfMemory>
        ensures { IfOk result (λ conds. conds
            ≡ filter_map (ground_condition (instance_of self.now)) bodies.now) }
    {
        let mut conds = Vec::with_capacity(alloc, bodies.len())?;
        for body in bodies {
            self.add_condition(body, &mut conds)?;
        }
        Ok(List::of(conds))
    }

    // The rule of these conditions for a value; None where the first is no trigger.
    fn rule(&self, alloc: Global, value: u32, bodies: &[Body]) -> Result<Option<Rule>, OutOfMemory>
        ensures { IfOk result (λ rule. rule ≡ ground_rule (instance_of self.now) value bodies.now) }
    {
        match bodies {
            [
                Body::Happens {
                    positive: true,
                    event,
                },
                others @ ..,
            ] => Ok(Some(Rule {
                value,
                trigger: self.event(event),
                conds: self.conditions(alloc, others)?,
            })),
            _ => Ok(None),
        }
    }

    // The number of the unit in the head.
    pub(crate) fn unit(&self) -> u32
        ensures { result ≡ head_unit (instance_of self.now) }
    {
        match self.clause.form() {
            Form::Initially(fv) => self.atom(&fv.atom),
            Form::Initiated(fv, _) => self.atom(&fv.atom),
            Form::Terminated(fv, _) => self.atom(&fv.atom),
            Form::Happens(atom, _) => self.atom(atom),
            Form::HoldsFor(fv, _) => self.atom(&fv.atom),
            _ => 0,
        }
    }

    // The number of the value in the head, 0 for a derived event.
    pub(crate) fn head_value(&self) -> u32
        ensures { result ≡ head_value (instance_of self.now) }
    {
        match self.clause.form() {
            Form::Initially(fv) => self.value(fv),
            Form::Initiated(fv, _) => self.value(fv),
            Form::Terminated(fv, _) => self.value(fv),
            Form::HoldsFor(fv, _) => self.value(fv),
            _ => 0,
        }
    }

    // The value that an `initially` statement gives; None where the statement is another.
    pub(crate) fn opening(&self) -> Option<u32>
        ensures { result ≡ opening_by (instance_of self.now) (clause_of self.now.clause.now).form }
    {
        match self.clause.form() {
            Form::Initially(_) => Some(self.head_value()),
            _ => None,
        }
    }

    // The rule that the statement is, where it is of this part.
    pub(crate) fn rule_of(&self, alloc: Global, part: Part) -> Result<Option<Rule>, OutOfMemory>
        ensures { IfOk result (λ rule. rule ≡ rule_by part (instance_of self.now)
            (clause_of self.now.clause.now).form) }
    {
        match (part, self.clause.form()) {
            (Part::Initiation, Form::Initiated(_, bodies))
            | (Part::Termination, Form::Terminated(_, bodies))
            | (Part::Occurrence, Form::Happens(_, bodies)) => {
                self.rule(alloc, self.head_value(), bodies.as_slice())
            }
            _ => Ok(None),
        }
    }

    // An expression without variables.
    #[cycle(expression)]
    fn expression(&self, alloc: Global, tree: &Tree) -> Result<Expr, OutOfMemory>
        ensures { IfOk result (λ expr. plain_expr expr ≡ ground_expression (instance_of self.now)
            (plain_tree tree.now)) }
    {
        match tree {
            Tree::Leaf(fv) => Ok(Expr::Row(self.atom(&fv.atom), self.value(fv))),
            Tree::Union(members) => Ok(Expr::Union(self.expressions(alloc, members)?)),
            Tree::Intersect(members) => Ok(Expr::Intersect(self.expressions(alloc, members)?)),
            Tree::Complement(first, others) => {
                let first = self.expression(alloc, first)?;
                let others = self.expressions(alloc, others)?;
                complement_expr(alloc, first, others)
            }
        }
    }

    // Expressions without variables.
    #[cycle(expression)]
    fn expressions(&self, alloc: Global, trees: &[Tree]) -> Result<Vec<Expr>, OutOfMemory>
        ensures { IfOk result (λ exprs. map plain_expr exprs.items
            ≡ map (λ tree. ground_expression (instance_of self.now) (plain_tree tree)) trees.now) }
    {
        let mut exprs = Vec::with_capacity(alloc, trees.len())?;
        for tree in trees {
            exprs.push(self.expression(alloc, tree)?)?;
        }
        Ok(exprs)
    }

    // The expression of a `holdsFor` statement; None where the statement is another.
    pub(crate) fn expression_of(&self, alloc: Global) -> Result<Option<Expr>, OutOfMemory>
        ensures { IfOk result (λ expr. option_map plain_expr expr
            ≡ expression_by (instance_of self.now) (clause_of self.now.clause.now).form) }
    {
        match self.clause.form() {
            Form::HoldsFor(_, tree) => Ok(Some(self.expression(alloc, tree)?)),
            _ => Ok(None),
        }
    }
}
