// Copies of statements.
ghost use Rattle.std.specs.Prelude.{◌≡◌, map, IfOk};
ghost use Rattle.rule_forms.specs.Forms.{plain_tree, plain_form, plain, Domain, Happens, HoldsFor};

use crate::form::{Atom, Body, Decl, EventText, Form, Fv, Term, Tree};
use crate::syntax::Statement;
use rt_base::{List, OutOfMemory, Word};
use std::alloc::Global;

impl Statement {
    /// A statement that says the same on the same line.
    pub fn copy(&self, alloc: Global) -> Result<Statement, OutOfMemory>
        ensures same { IfOk result (λ copied. plain copied ≡ plain self.now) }
    {
        let form = copy_form(alloc, &self.form)?;
        Ok(Statement {
            line: self.line,
            form,
        })
    }
}

fn copy_word(alloc: Global, word: &Word) -> Result<Word, OutOfMemory>
    ensures { IfOk result (λ copied. copied ≡ word.now) }
{
    Word::new(alloc, word.as_str())
}

fn copy_words(alloc: Global, words: &List<Word>) -> Result<List<Word>, OutOfMemory>
    ensures { IfOk result (λ copied. copied ≡ words.now) }
{
    let mut copied = Vec::new(alloc);
    for word in words.as_slice() {
        copied.push(copy_word(alloc, word)?)?;
    }
    Ok(List::of(copied))
}

fn copy_decl(alloc: Global, decl: &Decl) -> Result<Decl, OutOfMemory>
    ensures { IfOk result (λ copied. copied ≡ decl.now) }
{
    let name = copy_word(alloc, &decl.name)?;
    let args = copy_words(alloc, &decl.args)?;
    Ok(Decl { name, args })
}

fn copy_term(alloc: Global, term: &Term) -> Result<Term, OutOfMemory>
    ensures { IfOk result (λ copied. copied ≡ term.now) }
{
    match term {
        Term::Entity(word) => copy_word(alloc, word).map(Term::Entity),
        Term::Variable(word) => copy_word(alloc, word).map(Term::Variable),
    }
}

fn copy_terms(alloc: Global, terms: &List<Term>) -> Result<List<Term>, OutOfMemory>
    ensures { IfOk result (λ copied. copied ≡ terms.now) }
{
    let mut copied = Vec::new(alloc);
    for term in terms.as_slice() {
        copied.push(copy_term(alloc, term)?)?;
    }
    Ok(List::of(copied))
}

fn copy_atom(alloc: Global, atom: &Atom) -> Result<Atom, OutOfMemory>
    ensures { IfOk result (λ copied. copied ≡ atom.now) }
{
    let name = copy_word(alloc, &atom.name)?;
    let args = copy_terms(alloc, &atom.args)?;
    Ok(Atom { name, args })
}

fn copy_fv(alloc: Global, fv: &Fv) -> Result<Fv, OutOfMemory>
    ensures { IfOk result (λ copied. copied ≡ fv.now) }
{
    let atom = copy_atom(alloc, &fv.atom)?;
    let value = copy_word(alloc, &fv.value)?;
    Ok(Fv { atom, value })
}

fn copy_event(alloc: Global, event: &EventText) -> Result<EventText, OutOfMemory>
    ensures { IfOk result (λ copied. copied ≡ event.now) }
{
    match event {
        EventText::Plain(atom) => copy_atom(alloc, atom).map(EventText::Plain),
        EventText::Start(fv) => copy_fv(alloc, fv).map(EventText::Start),
        EventText::End(fv) => copy_fv(alloc, fv).map(EventText::End),
    }
}

fn copy_body(alloc: Global, body: &Body) -> Result<Body, OutOfMemory>
    ensures { IfOk result (λ copied. copied ≡ body.now) }
{
    match body {
        Body::Happens { positive, event } => Ok(Body::Happens {
            positive: *positive,
            event: copy_event(alloc, event)?,
        }),
        Body::Holds { positive, fv } => Ok(Body::Holds {
            positive: *positive,
            fv: copy_fv(alloc, fv)?,
        }),
        Body::Unequal(one, other) => {
            let one = copy_word(alloc, one)?;
            Ok(Body::Unequal(one, copy_word(alloc, other)?))
        }
    }
}

fn copy_bodies(alloc: Global, bodies: &List<Body>) -> Result<List<Body>, OutOfMemory>
    ensures { IfOk result (λ copied. copied ≡ bodies.now) }
{
    let mut copied = Vec::new(alloc);
    for body in bodies.as_slice() {
        copied.push(copy_body(alloc, body)?)?;
    }
    Ok(List::of(copied))
}

#[cycle(copy_tree)]
#[tactic(auto, using(crate::proofs::Copies::same_union, crate::proofs::Copies::same_intersect))]
fn copy_tree(alloc: Global, tree: &Tree) -> Result<Tree, OutOfMemory>
    ensures { IfOk result (λ copied. plain_tree copied ≡ plain_tree tree.now) }
{
    match tree {
        Tree::Leaf(fv) => copy_fv(alloc, fv).map(Tree::Leaf),
        Tree::Union(members) => copy_trees(alloc, members.as_slice()).map(Tree::Union),
        Tree::Intersect(members) => copy_trees(alloc, members.as_slice()).map(Tree::Intersect),
        Tree::Complement(first, others) => {
            let first = Box::new(alloc, copy_tree(alloc, first)?)?;
            let others = copy_trees(alloc, others.as_slice())?;
            Ok(Tree::Complement(first, others))
        }
    }
}

#[cycle(copy_tree)]
fn copy_trees(alloc: Global, members: &[Tree]) -> Result<Vec<Tree>, OutOfMemory>
    ensures { IfOk result (λ copied. map plain_tree copied.items ≡ map plain_tree members.now) }
{
    let mut copied = Vec::new(alloc);
    for tree in members {
        copied.push(copy_tree(alloc, tree)?)?;
    }
    Ok(copied)
}

// A copy of a declaration and its values.
fn copy_valued(
    alloc: Global,
    decl: &Decl,
    values: &List<Word>,
) -> Result<(Decl, List<Word>), OutOfMemory>
    ensures { IfOk result (λ copied. copied ≡ (decl.now, values.now)) }
{
    let decl = copy_decl(alloc, decl)?;
    Ok((decl, copy_words(alloc, values)?))
}

// A copy of a rule with a fluent-value in its head.
fn copy_rule(alloc: Global, fv: &Fv, bodies: &List<Body>) -> Result<(Fv, List<Body>), OutOfMemory>
    ensures { IfOk result (λ copied. copied ≡ (fv.now, bodies.now)) }
{
    let fv = copy_fv(alloc, fv)?;
    Ok((fv, copy_bodies(alloc, bodies)?))
}

fn copy_domain(alloc: Global, name: &Word, entities: &List<Word>) -> Result<Form, OutOfMemory>
    ensures { IfOk result (λ copied. plain_form copied ≡ Domain name.now entities.now) }
{
    let name = copy_word(alloc, name)?;
    Ok(Form::Domain(name, copy_words(alloc, entities)?))
}

fn copy_happens(alloc: Global, atom: &Atom, bodies: &List<Body>) -> Result<Form, OutOfMemory>
    ensures { IfOk result (λ copied. plain_form copied ≡ Happens atom.now bodies.now) }
{
    let atom = copy_atom(alloc, atom)?;
    Ok(Form::Happens(atom, copy_bodies(alloc, bodies)?))
}

fn copy_holds_for(alloc: Global, fv: &Fv, tree: &Tree) -> Result<Form, OutOfMemory>
    ensures { IfOk result (λ copied. plain_form copied ≡ HoldsFor fv.now (plain_tree tree.now)) }
{
    let fv = copy_fv(alloc, fv)?;
    Ok(Form::HoldsFor(fv, copy_tree(alloc, tree)?))
}

fn copy_form(alloc: Global, form: &Form) -> Result<Form, OutOfMemory>
    ensures { IfOk result (λ copied. plain_form copied ≡ plain_form form.now) }
{
    match form {
        Form::Window(number) => Ok(Form::Window(*number)),
        Form::Step(number) => Ok(Form::Step(*number)),
        Form::From(number) => Ok(Form::From(*number)),
        Form::Queries(number) => Ok(Form::Queries(*number)),
        Form::Domain(name, entities) => copy_domain(alloc, name, entities),
        Form::Input(decl) => copy_decl(alloc, decl).map(Form::Input),
        Form::Simple(decl, values) => {
            copy_valued(alloc, decl, values).map(|(decl, values)| Form::Simple(decl, values))
        }
        Form::Static(decl, values) => {
            copy_valued(alloc, decl, values).map(|(decl, values)| Form::Static(decl, values))
        }
        Form::Derived(decl) => copy_decl(alloc, decl).map(Form::Derived),
        Form::Initially(fv) => copy_fv(alloc, fv).map(Form::Initially),
        Form::Initiated(fv, bodies) => {
            copy_rule(alloc, fv, bodies).map(|(fv, bodies)| Form::Initiated(fv, bodies))
        }
        Form::Terminated(fv, bodies) => {
            copy_rule(alloc, fv, bodies).map(|(fv, bodies)| Form::Terminated(fv, bodies))
        }
        Form::Happens(atom, bodies) => copy_happens(alloc, atom, bodies),
        Form::HoldsFor(fv, tree) => copy_holds_for(alloc, fv, tree),
    }
}
