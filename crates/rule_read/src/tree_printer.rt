// The tokens of expressions.
ghost use Rattle.std.specs.Prelude.{◌≡◌, ◌++◌, ◌∷◌, OnOk, map};
ghost use Rattle.rule_read.specs.Lexed.{tokens};
ghost use Rattle.rule_read.specs.FormTokens.{commas, in_brackets, in_parentheses, keyword};
ghost use Rattle.rule_read.specs.Printed.{tree_tokens};

use crate::keyword::Keyword;
use crate::printer::{put_comma, put_fv, put_key, put_mark};
use crate::token::{Mark, Token};
use rt_base::OutOfMemory;
use rule_forms::Tree;

#[cycle(tree)]
#[tactic(auto, using(crate::proofs::TreeTokens::union_tokens, crate::proofs::TreeTokens::intersect_tokens))]
pub(crate) fn put_tree<'a>(out: &mut Vec<Token<'a>>, tree: &'a Tree) -> Result<(), OutOfMemory>
    ensures { OnOk result (tokens out.new.items ≡ tokens out.old.items ++ tree_tokens tree.now) }
{
    match tree {
        Tree::Leaf(fv) => put_fv(out, fv),
        Tree::Union(members) => put_construct(out, Keyword::UnionAll, members.as_slice()),
        Tree::Intersect(members) => put_construct(out, Keyword::IntersectAll, members.as_slice()),
        Tree::Complement(first, others) => {
            put_key(out, Keyword::RelativeComplementAll)?;
            put_mark(out, Mark::Open)?;
            put_tree(out, first)?;
            put_mark(out, Mark::Comma)?;
            put_tree_row(out, others.as_slice())?;
            put_mark(out, Mark::Close)?;
            Ok(())
        }
    }
}

// A construct over some members.
#[cycle(tree)]
fn put_construct<'a>(
    out: &mut Vec<Token<'a>>,
    word: Keyword,
    members: &'a [Tree],
) -> Result<(), OutOfMemory>
    ensures { OnOk result (tokens out.new.items ≡ tokens out.old.items ++ keyword word
        ∷ in_parentheses (in_brackets (map tree_tokens members.now))) }
{
    put_key(out, word)?;
    put_mark(out, Mark::Open)?;
    put_tree_row(out, members)?;
    put_mark(out, Mark::Close)
}

// Expressions in brackets.
#[cycle(tree)]
fn put_tree_row<'a>(out: &mut Vec<Token<'a>>, members: &'a [Tree]) -> Result<(), OutOfMemory>
    ensures { OnOk result (tokens out.new.items ≡ tokens out.old.items ++ in_brackets
        (map tree_tokens members.now)) }
{
    put_mark(out, Mark::OpenList)?;
    put_trees(out, members)?;
    put_mark(out, Mark::CloseList)
}

// Expressions with commas between them.
#[cycle(tree)]
fn put_trees<'a>(out: &mut Vec<Token<'a>>, members: &'a [Tree]) -> Result<(), OutOfMemory>
    ensures { OnOk result (tokens out.new.items ≡ tokens out.old.items ++ commas
        (map tree_tokens members.now)) }
{
    for (turn, tree) in members.iter().enumerate() {
        put_comma(out, turn)?;
        put_tree(out, tree)?;
    }
    Ok(())
}
