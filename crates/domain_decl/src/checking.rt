// Checking a description.
ghost use Rattle.std.specs.Prelude.{map, IfOk};
ghost use Rattle.rule_forms.specs.Forms.{plain};
ghost use Rattle.rule_forms.specs.Sound.{IsSound as IsSoundSyntax};
ghost use Rattle.domain_decl.specs.Accepted.{checking, Answers};
ghost use Rattle.decl_known.specs.Sound.{IsSound};

use crate::contents::{domains_of, names_of, rules_of};
use crate::declarations::test_declarations;
use crate::plans::plan_of;
use crate::rules::test_rules;
use decl_known::{Checked, DeclRefused};
use rule_forms::Syntax;
use std::alloc::Global;

/// What a description declares: its plan, its domains and names, and copies of the statements that
/// define fluents and derived events. Or the first rule that it breaks, in this order.
///
/// The plan:
/// - `BadPlan`: there is not exactly one `window` and one `step`, or more than one `from` or
///   `queries`, or not 1 <= step <= window <= 1,000,000,000,000, from <= 4,000,000,000,000,000 and
///   1 <= queries <= 1,024. Without the statement `from` is 0 and `queries` is 1,024.
///
/// Each declaration, in the order of the text:
/// - `TooMany`: it is the 65th domain, or has more than 4,096 entities, 3 arguments or 64 values.
/// - `Undeclared`: an argument is not the name of a domain, declared anywhere in the text.
/// - `Twice`: its name was declared before, domains and all other names together, or an entity or a
///   value stands twice in its list.
///
/// Each `initially`, `initiatedAt`, `terminatedAt`, `happensAt` and `holdsFor` statement, in the
/// order of the text:
/// - `TooMany`: it has more than 8 conditions, the trigger and `\=` counted, or its expression more
///   than 64 fluent-values (its leaves).
/// - `NoTrigger`: it has conditions, and the first is not a positive `happensAt`.
/// - `Undeclared`: a name is declared nowhere in the text.
/// - `WrongKind`: an atom names another kind of fluent or event than has to stand there, or a
///   domain.
/// - `Arity`: an atom has another number of arguments than its declaration.
/// - `Undeclared`: a value is none of its fluent's, or an entity is not in the domain of its place.
/// - `Clash`: a variable stands at places of two different domains. The sides of `\=` may be of
///   different domains.
/// - `Loose`: a variable of an expression is not in the head, or one of `\=` stands in no atom.
///
/// Each test is made over the whole statement before the next. `OutOfMemory` may come in the place
/// of any answer. The rules, their limits and their order are this project's own.
pub fn check(alloc: Global, syntax: &Syntax) -> Result<Checked, DeclRefused>
    requires { IsSoundSyntax syntax.now }
    ensures exact { Answers result (checking (map plain syntax.now.statements)) }
    ensures sound { IfOk result IsSound }
{
    let statements = syntax.statements.as_slice();
    let Some(plan) = plan_of(statements) else {
        return Err(DeclRefused::BadPlan);
    };
    test_declarations(alloc, statements)?;
    let domains = domains_of(alloc, statements)?;
    let names = names_of(alloc, statements, domains.as_slice())?;
    test_rules(alloc, statements, domains.as_slice(), names.as_slice())?;
    let rules = rules_of(alloc, statements)?;
    Ok(Checked {
        plan,
        domains,
        names,
        rules,
    })
}
