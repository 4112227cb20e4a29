// A statement with its variables.
ghost use Rattle.std.specs.Prelude.{◌≡◌, ◌<◌, ◌^◌, true, map, find, length, slice_get, Some, IfOk};
ghost use Rattle.std.specs.Str.{bytes_eq};
ghost use Rattle.std.specs.List.{list_all};
ghost use Rattle.ground_types.specs.Sound.{domain_sizes};
ghost use Rattle.rule_forms.specs.Forms.{plain_form};
ghost use Rattle.decl_known.specs.Sound.{is_sound_domain, is_sound_name};
ghost use Rattle.ground_types.specs.Words.{place_in};
ghost use Rattle.decl_known.specs.Gathered.{places_of};
ghost use Rattle.ground_names.specs.Counted.{capped, has_small_numbers};
ghost use Rattle.ground_rules.specs.Assignments.{variables_of, number_at, domain_of, assignments};
ghost use Rattle.ground_rules.specs.Declarations.{clause_by};
ghost use Rattle.ground_rules.specs.NumberedDeclarations.{AreDeclarations};

use crate::variables::variables_of;
use decl_known::{Known, Place, places};
use ground_names::{count_lists, list_at, sizes_of};
use rt_base::{OutOfMemory, Word};
use rule_forms::Form;
use std::alloc::Global;

// A statement over declarations, with its variables. Contracts see the statement and the
// declarations.
#[derive(Drop)]
pub(crate) struct Clause<'k, 'a> {
    known: &'k Known<'a>,
    form: &'k Form,
    // In the order of their first occurrence in the text.
    variables: Vec<&'k Word>,
    // For each variable the number of its domain.
    domains: Vec<u32>,
    // For each variable how many entities its domain has.
    sizes: Vec<u32>,
    ghost variables_are: { map (λ word. word.now) variables.items
        ≡ variables_of (plain_form form.now) },
    ghost domains_are: { domains.items ≡ map (domain_of (clause_by known.now form.now))
        (map (λ word. word.now) variables.items) },
    ghost sizes_are: { sizes.items ≡ domain_sizes known.now.domains.now domains.items },
    ghost sound_domains: { list_all is_sound_domain known.now.domains.now ≡ true },
    ghost sound_names: { list_all (is_sound_name (length known.now.domains.now))
        known.now.names.now ≡ true },
    ghost small_numbers: { list_all (has_small_numbers known.now.domains.now) known.now.names.now
        ≡ true },
}

// The number of the domain of a variable: that of the first of these places at which it stands, 0
// where there is none.
fn domain_among(places: &[Place], variable: &Word) -> u32
    ensures { result ≡ number_at (find (λ place. bytes_eq place.0 variable.now)
        (places_of places.now)) }
{
    match places
        .iter()
        .find(|place| place.variable.as_str() == variable.as_str())
    {
        Some(place) => place.domain,
        None => 0,
    }
}

// For each variable the number of its domain.
fn domains_of(alloc: Global, places: &[Place], variables: &[&Word]) -> Result<Vec<u32>, OutOfMemory>
    ensures { IfOk result (λ domains. domains.items
        ≡ map (λ variable. number_at (find (λ place. bytes_eq place.0 variable.now)
        (places_of places.now))) variables.now) }
{
    let mut domains = Vec::with_capacity(alloc, variables.len())?;
    for variable in variables {
        domains.push(domain_among(places, variable))?;
    }
    Ok(domains)
}

impl<'k, 'a> Clause<'k, 'a> {
    // A statement over these declarations. It takes the time of a walk over the statement for each
    // of its variables.
    pub(crate) fn new(
        alloc: Global,
        known: &'k Known<'a>,
        form: &'k Form,
    ) -> Result<Clause<'k, 'a>, OutOfMemory>
        requires { AreDeclarations known.now.domains.now known.now.names.now }
        ensures { IfOk result (λ clause. clause_by clause.known.now clause.form.now
            ≡ clause_by known.now form.now) }
    {
        let variables = variables_of(alloc, form)?;
        let places = places(alloc, known, form)?;
        let domains = domains_of(alloc, places.as_slice(), variables.as_slice())?;
        let sizes = sizes_of(alloc, known.domains, domains.as_slice())?;
        Ok(Clause {
            known,
            form,
            variables,
            domains,
            sizes,
        })
    }

    // The declarations.
    pub(crate) fn known(&self) -> &'k Known<'a>
        ensures domains { result.now.domains.now
            ≡ (clause_by self.now.known.now self.now.form.now).domains }
        ensures names { result.now.names.now
            ≡ (clause_by self.now.known.now self.now.form.now).names }
        ensures declarations { AreDeclarations (clause_by self.now.known.now
            self.now.form.now).domains (clause_by self.now.known.now self.now.form.now).names }
    {
        self.known
    }

    // What the statement says.
    pub(crate) fn form(&self) -> &'k Form
        ensures { plain_form result.now ≡ (clause_by self.now.known.now self.now.form.now).form }
    {
        self.form
    }

    // How many assignments there are, or the greatest number where there are more.
    pub(crate) fn count(&self) -> u64
        ensures { result ≡ capped (length
            (assignments (clause_by self.now.known.now self.now.form.now))) }
    {
        count_lists(self.sizes.as_slice())
    }

    // Puts the assignment of a number in place of what was there: for each variable the number of
    // its entity.
    pub(crate) fn assign(&self, number: u32, into: &mut Vec<u32>) -> Result<(), OutOfMemory>
        requires inside { number < length
            (assignments (clause_by self.now.known.now self.now.form.now)) }
        requires few { length (assignments (clause_by self.now.known.now self.now.form.now))
            < 2 ^ 64 }
        ensures { IfOk result (λ _. slice_get
            (assignments (clause_by self.now.known.now self.now.form.now)) number
            ≡ Some into.new.items) }
    {
        list_at(self.sizes.as_slice(), number, into)
    }

    // The place of a variable among those of the statement.
    pub(crate) fn place(&self, variable: &Word) -> Option<usize>
        ensures { result ≡ place_in (variables_of (clause_by self.now.known.now
            self.now.form.now).form) variable.now }
    {
        self.variables
            .iter()
            .position(|other| other.as_str() == variable.as_str())
    }

    // The number of a variable's domain, 0 where the variable stands in no atom.
    pub(crate) fn domain(&self, variable: &Word) -> u32
        ensures { result ≡ domain_of (clause_by self.now.known.now self.now.form.now) variable.now }
    {
        match self.place(variable) {
            Some(place) => self.domains[place],
            None => 0,
        }
    }
}
