// Instances as statements: entities stand in place of variables, and no `\=` is left.
ghost use Rattle.std.specs.Prelude.{◌≡◌, ◌++◌, true, map, option_to_list, IfOk};
ghost use Rattle.rule_forms.specs.Forms.{plain_form, plain_tree, Happens, HoldsFor, Value_of};
ghost use Rattle.rule_forms.specs.Forms.{Complement_of, expressions, is_rule};
ghost use Rattle.ground_rules.specs.LentInstances.{instance_of};
ghost use Rattle.ground_rules.specs.Stated.{stated_term, stated_atom, stated_fv, stated_event};
ghost use Rattle.ground_rules.specs.Stated.{stated_condition, stated_conditions, stated_expression};
ghost use Rattle.ground_rules.specs.Stated.{stated};

use crate::instance::Instance;
use rt_base::{List, OutOfMemory, Word};
use rule_forms::{Atom, Body, EventText, Form, Fv, Term, Tree};
use std::alloc::Global;

// A relative complement of an expression and others.
fn complement_tree(alloc: Global, first: Tree, others: Vec<Tree>) -> Result<Tree, OutOfMemory>
    ensures { IfOk result (λ tree. plain_tree tree ≡ Complement_of (plain_tree first)
        (expressions (map plain_tree others.items))) }
{
    let first = Box::new(alloc, first)?;
    Ok(Tree::Complement(first, others))
}

impl<'i, 'k, 'a> Instance<'i, 'k, 'a> {
    // A term, with the entity in place of a variable.
    fn stated_term(&self, alloc: Global, term: &Term) -> Result<Term, OutOfMemory>
        ensures { IfOk result (λ stated. stated ≡ stated_term (instance_of self.now) term.now) }
    {
        match term {
            Term::Entity(word) => Ok(Term::Entity(Word::new(alloc, word.as_str())?)),
            Term::Variable(word) => Ok(Term::Entity(Word::new(alloc, self.word(word))?)),
        }
    }

    // The arguments of an atom.
    fn stated_terms(&self, alloc: Global, terms: &[Term]) -> Result<List<Term>, OutOfMemory>
        ensures { IfOk result (λ stated. stated ≡ map (stated_term (instance_of self.now))
            terms.now) }
    {
        let mut stated = Vec::with_capacity(alloc, terms.len())?;
        for term in terms {
            stated.push(self.stated_term(alloc, term)?)?;
        }
        Ok(List::of(stated))
    }

    // An atom without variables.
    fn stated_atom(&self, alloc: Global, atom: &Atom) -> Result<Atom, OutOfMemory>
        ensures { IfOk result (λ stated. stated ≡ stated_atom (instance_of self.now) atom.now) }
    {
        let name = Word::new(alloc, atom.name.as_str())?;
        let args = self.stated_terms(alloc, atom.args.as_slice())?;
        Ok(Atom { name, args })
    }

    // A fluent-value without variables.
    fn stated_fv(&self, alloc: Global, fv: &Fv) -> Result<Fv, OutOfMemory>
        ensures { IfOk result (λ stated. stated ≡ stated_fv (instance_of self.now) fv.now) }
    {
        let atom = self.stated_atom(alloc, &fv.atom)?;
        let value = Word::new(alloc, fv.value.as_str())?;
        Ok(Fv { atom, value })
    }

    // What a condition on an event says.
    fn stated_event(&self, alloc: Global, event: &EventText) -> Result<EventText, OutOfMemory>
        ensures { IfOk result (λ stated. stated ≡ stated_event (instance_of self.now) event.now) }
    {
        match event {
            EventText::Plain(atom) => Ok(EventText::Plain(self.stated_atom(alloc, atom)?)),
            EventText::Start(fv) => Ok(EventText::Start(self.stated_fv(alloc, fv)?)),
            EventText::End(fv) => Ok(EventText::End(self.stated_fv(alloc, fv)?)),
        }
    }

    // What a condition says; None for `\=`.
    fn stated_condition(&self, alloc: Global, body: &Body) -> Result<Option<Body>, OutOfMemory>
        ensures { IfOk result (λ stated. stated ≡ stated_condition (instance_of self.now)
            body.now) }
    {
        match body {
            Body::Happens { positive, event } => Ok(Some(Body::Happens {
                positive: *positive,
                event: self.stated_event(alloc, event)?,
            })),
            Body::Holds { positive, fv } => Ok(Some(Body::Holds {
                positive: *positive,
                fv: self.stated_fv(alloc, fv)?,
            })),
            Body::Unequal(..) => Ok(None),
        }
    }

    // Adds what a condition says, and nothing for `\=`.
    fn add_stated(
        &self,
        alloc: Global,
        body: &Body,
        into: &mut Vec<Body>,
    ) -> Result<(), OutOfMemory>
        ensures { IfOk result (λ _. into.new.items ≡ into.old.items ++ option_to_list
            (stated_condition (instance_of self.now) body.now)) }
    {
        match self.stated_condition(alloc, body)? {
            Some(stated) => into.push(stated)?,
            None => {}
        }
        Ok(())
    }

    // What the conditions say.
    fn stated_conditions(&self, alloc: Global, bodies: &[Body]) -> Result<List<Body>, OutOfMemory>
        ensures { IfOk result (λ stated. stated ≡ stated_conditions (instance_of self.now)
            bodies.now) }
    {
        let mut stated = Vec::with_capacity(alloc, bodies.len())?;
        for body in bodies {
            self.add_stated(alloc, body, &mut stated)?;
        }
        Ok(List::of(stated))
    }

    // An expression that is a fluent-value.
    fn stated_leaf(&self, alloc: Global, fv: &Fv) -> Result<Tree, OutOfMemory>
        ensures { IfOk result (λ stated. plain_tree stated
            ≡ Value_of (stated_fv (instance_of self.now) fv.now)) }
    {
        Ok(Tree::Leaf(self.stated_fv(alloc, fv)?))
    }

    // An expression.
    #[cycle(stated)]
    fn stated_tree(&self, alloc: Global, tree: &Tree) -> Result<Tree, OutOfMemory>
        ensures { IfOk result (λ stated. plain_tree stated ≡ stated_expression
            (instance_of self.now) (plain_tree tree.now)) }
    {
        match tree {
            Tree::Leaf(fv) => self.stated_leaf(alloc, fv),
            Tree::Union(members) => Ok(Tree::Union(self.stated_trees(alloc, members)?)),
            Tree::Intersect(members) => Ok(Tree::Intersect(self.stated_trees(alloc, members)?)),
            Tree::Complement(first, others) => {
                let first = self.stated_tree(alloc, first)?;
                let others = self.stated_trees(alloc, others)?;
                complement_tree(alloc, first, others)
            }
        }
    }

    // Expressions.
    #[cycle(stated)]
    fn stated_trees(&self, alloc: Global, trees: &[Tree]) -> Result<Vec<Tree>, OutOfMemory>
        ensures { IfOk result (λ stated. map plain_tree stated.items
            ≡ map (λ tree. stated_expression (instance_of self.now) (plain_tree tree)) trees.now) }
    {
        let mut stated = Vec::with_capacity(alloc, trees.len())?;
        for tree in trees {
            stated.push(self.stated_tree(alloc, tree)?)?;
        }
        Ok(stated)
    }

    // The head and the conditions of a rule for a fluent.
    fn stated_rule(
        &self,
        alloc: Global,
        fv: &Fv,
        bodies: &[Body],
    ) -> Result<(Fv, List<Body>), OutOfMemory>
        ensures head { IfOk result (λ stated. stated.0 ≡ stated_fv (instance_of self.now) fv.now) }
        ensures conditions { IfOk result (λ stated. stated.1
            ≡ stated_conditions (instance_of self.now) bodies.now) }
    {
        let fv = self.stated_fv(alloc, fv)?;
        let bodies = self.stated_conditions(alloc, bodies)?;
        Ok((fv, bodies))
    }

    // A rule for a derived event.
    fn stated_occurrence(
        &self,
        alloc: Global,
        atom: &Atom,
        bodies: &[Body],
    ) -> Result<Form, OutOfMemory>
        ensures { IfOk result (λ form. plain_form form ≡ Happens
            (stated_atom (instance_of self.now) atom.now)
            (stated_conditions (instance_of self.now) bodies.now)) }
    {
        let atom = self.stated_atom(alloc, atom)?;
        let bodies = self.stated_conditions(alloc, bodies)?;
        Ok(Form::Happens(atom, bodies))
    }

    // A `holdsFor` statement.
    fn stated_intervals(&self, alloc: Global, fv: &Fv, tree: &Tree) -> Result<Form, OutOfMemory>
        ensures { IfOk result (λ form. plain_form form ≡ HoldsFor
            (stated_fv (instance_of self.now) fv.now)
            (stated_expression (instance_of self.now) (plain_tree tree.now))) }
    {
        let fv = self.stated_fv(alloc, fv)?;
        let tree = self.stated_tree(alloc, tree)?;
        Ok(Form::HoldsFor(fv, tree))
    }

    // What the instance says, where its statement defines a fluent or an event.
    pub(crate) fn stated(&self, alloc: Global) -> Result<Form, OutOfMemory>
        requires { is_rule (instance_of self.now).clause.form ≡ true }
        ensures { IfOk result (λ form. plain_form form ≡ stated (instance_of self.now)) }
    {
        match self.clause.form() {
            Form::Initially(fv) => Ok(Form::Initially(self.stated_fv(alloc, fv)?)),
            Form::Initiated(fv, bodies) => {
                let (fv, bodies) = self.stated_rule(alloc, fv, bodies.as_slice())?;
                Ok(Form::Initiated(fv, bodies))
            }
            Form::Terminated(fv, bodies) => {
                let (fv, bodies) = self.stated_rule(alloc, fv, bodies.as_slice())?;
                Ok(Form::Terminated(fv, bodies))
            }
            Form::Happens(atom, bodies) => self.stated_occurrence(alloc, atom, bodies.as_slice()),
            Form::HoldsFor(fv, tree) => self.stated_intervals(alloc, fv, tree),
            _ => unreachable!(),
        }
    }
}
