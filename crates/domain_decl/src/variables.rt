// The variables of a rule that stand at places of two domains, or have to stand elsewhere too.
ghost use Rattle.std.specs.Prelude.{◌≡◌, not, flat_map};
ghost use Rattle.std.specs.List.{list_any};
ghost use Rattle.rule_forms.specs.Forms.{plain_form};
ghost use Rattle.ground_types.specs.Words.{has};
ghost use Rattle.decl_known.specs.Mentions.{variables};
ghost use Rattle.decl_known.specs.Rules.{clash, compared, has_loose_variable};
ghost use Rattle.decl_known.specs.Gathered.{mentions_of, place_of, places_of};
ghost use Rattle.domain_decl.specs.Loose.{is_variable, is_loose};
ghost use Rattle.domain_decl.specs.Parts.{AreAtoms};

use decl_known::{Mention, Place};
use rt_base::Word;
use rule_forms::{Body, Form, Term, conditions_of};

// It is the same variable at a place of another domain.
fn clash(one: &Place, other: &Place) -> bool
    ensures { result ≡ clash (place_of one.now) (place_of other.now) }
{
    // Numbers are compared first, since most places are of one domain.
    one.domain != other.domain && one.variable.as_str() == other.variable.as_str()
}

fn clashes(one: &Place, places: &[Place]) -> bool
    ensures { result ≡ list_any (clash (place_of one.now)) (places_of places.now) }
{
    places.iter().any(|other| clash(one, other))
}

// Whether a variable stands at places of two domains.
pub(crate) fn has_clash(places: &[Place]) -> bool
    ensures { result ≡ list_any (λ one. list_any (clash one) (places_of places.now))
        (places_of places.now) }
{
    places.iter().any(|one| clashes(one, places))
}

fn is_variable(term: &Term, word: &Word) -> bool
    ensures { result ≡ is_variable word.now term.now }
{
    match term {
        Term::Entity(_) => false,
        Term::Variable(variable) => variable.as_str() == word.as_str(),
    }
}

fn has_variable(terms: &[Term], word: &Word) -> bool
    ensures { result ≡ list_any (is_variable word.now) terms.now }
{
    terms.iter().any(|term| is_variable(term, word))
}

// Whether a word is a variable of some atoms.
fn stands_in(mentions: &[Mention], word: &Word) -> bool
    ensures { result ≡ has (variables (mentions_of mentions.now)) word.now }
{
    mentions
        .iter()
        .any(|mention| has_variable(mention.atom.args.as_slice(), word))
}

fn is_loose(term: &Term, mentions: &[Mention]) -> bool
    ensures { result ≡ is_loose (variables (mentions_of mentions.now)) term.now }
{
    match term {
        Term::Entity(_) => false,
        Term::Variable(variable) => !stands_in(mentions, variable),
    }
}

fn has_loose(terms: &[Term], mentions: &[Mention]) -> bool
    ensures { result ≡ list_any (is_loose (variables (mentions_of mentions.now))) terms.now }
{
    terms.iter().any(|term| is_loose(term, mentions))
}

// Whether a variable of some atoms is none of the others.
fn any_loose(mentions: &[Mention], others: &[Mention]) -> bool
    ensures { result ≡ list_any (λ x. not (has (variables (mentions_of others.now)) x))
        (variables (mentions_of mentions.now)) }
{
    mentions
        .iter()
        .any(|mention| has_loose(mention.atom.args.as_slice(), others))
}

fn compares_loose(body: &Body, mentions: &[Mention]) -> bool
    ensures { result ≡ list_any (λ x. not (has (variables (mentions_of mentions.now)) x))
        (compared body.now) }
{
    match body {
        Body::Unequal(x, y) => !stands_in(mentions, x) || !stands_in(mentions, y),
        _ => false,
    }
}

// Whether a variable of `\=` is none of some atoms.
fn any_compared_loose(bodies: &[Body], mentions: &[Mention]) -> bool
    ensures { result ≡ list_any (λ x. not (has (variables (mentions_of mentions.now)) x))
        (flat_map compared bodies.now) }
{
    bodies.iter().any(|body| compares_loose(body, mentions))
}

// Whether a variable of an expression is not in the head, or one of `\=` stands in no atom. The
// atoms are those of the statement, and this many of them stand before its leaves.
#[tactic(auto, using(crate::proofs::Loose::loose_by_parts))]
pub(crate) fn has_loose_variable(form: &Form, atoms: &[Mention], others: usize) -> bool
    requires { AreAtoms (plain_form form.now) atoms.now others }
    ensures { result ≡ has_loose_variable (plain_form form.now) }
{
    let (front, leaves) = atoms.split_at(others);
    any_loose(leaves, front) || any_compared_loose(conditions_of(form), atoms)
}
