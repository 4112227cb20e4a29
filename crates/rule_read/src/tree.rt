// Reading an expression over intervals.
ghost use Rattle.std.specs.Prelude.{◌≡◌, map};
ghost use Rattle.rule_read.specs.Lexed.{tokens};
ghost use Rattle.rule_forms.specs.Forms.{plain_tree, Union_of, Intersect_of, Complement_of};
ghost use Rattle.rule_forms.specs.Forms.{expressions};
ghost use Rattle.rule_read.specs.Reading.{Reads, members_at, row_at, pair_at, enclosed_at};
ghost use Rattle.rule_read.specs.Reading.{construct_at, expression_at};

use crate::keyword::Keyword;
use crate::reader::Reader;
use crate::stop::Stop;
use crate::token::Mark;
use rule_forms::Tree;
use std::boxed::Box;

#[tactic(auto, using(rule_forms::proofs::Trees::plain_union))]
fn union_of(members: Vec<Tree>) -> Tree
    ensures { plain_tree result ≡ Union_of (expressions (map plain_tree members.items)) }
{
    Tree::Union(members)
}

#[tactic(auto, using(rule_forms::proofs::Trees::plain_intersect))]
fn intersect_of(members: Vec<Tree>) -> Tree
    ensures { plain_tree result ≡ Intersect_of (expressions (map plain_tree members.items)) }
{
    Tree::Intersect(members)
}

#[tactic(auto, using(rule_forms::proofs::Trees::plain_complement))]
fn complement_of(first: Box<Tree>, others: Vec<Tree>) -> Tree
    ensures { plain_tree result ≡ Complement_of (plain_tree first.value)
        (expressions (map plain_tree others.items)) }
{
    Tree::Complement(first, others)
}

impl<'a> Reader<'a> {
    // An expression with at most so many constructs inside one another.
    #[cycle(tree)]
    #[tactic(auto, using(crate::proofs::Depths::one_more_deep), unfolding(crate::specs::Reading::expression_at, crate::specs::Reading::mapped, crate::specs::Reading::bind))]
    pub(crate) fn tree(&mut self, depth: u8) -> Result<Tree, Stop>
        ensures { Reads plain_tree result (tokens self.new.rest.now)
            (expression_at depth (tokens self.old.rest.now)) }
    {
        if depth == 0 {
            return Ok(Tree::Leaf(self.fv()?));
        }
        self.construct(depth - 1)
    }

    // A construct over members with at most so many constructs inside one another, or a
    // fluent-value.
    #[cycle(tree)]
    #[tactic(auto, unfolding(crate::specs::Reading::construct_at, crate::specs::Reading::mapped, crate::specs::Reading::bind))]
    fn construct(&mut self, depth: u8) -> Result<Tree, Stop>
        ensures { Reads plain_tree result (tokens self.new.rest.now)
            (construct_at (expression_at depth) (tokens self.old.rest.now)) }
    {
        match self.key() {
            Some(Keyword::UnionAll) => {
                self.pass();
                self.enclosed_trees(depth).map(union_of)
            }
            Some(Keyword::IntersectAll) => {
                self.pass();
                self.enclosed_trees(depth).map(intersect_of)
            }
            Some(Keyword::RelativeComplementAll) => {
                self.pass();
                let (first, others) = self.enclosed_pair(depth)?;
                let first = Box::new(self.alloc, first)?;
                Ok(complement_of(first, others))
            }
            _ => self.fv().map(Tree::Leaf),
        }
    }

    // Expressions in brackets, in parentheses.
    #[cycle(tree)]
    #[tactic(auto, unfolding(crate::specs::Reading::enclosed_at, crate::specs::Reading::bind))]
    fn enclosed_trees(&mut self, depth: u8) -> Result<Vec<Tree>, Stop>
        ensures { Reads (λ v. map plain_tree v.items) result (tokens self.new.rest.now)
            (enclosed_at (row_at (expression_at depth)) (tokens self.old.rest.now)) }
    {
        self.mark(Mark::Open)?;
        let members = self.tree_row(depth)?;
        self.mark(Mark::Close)?;
        Ok(members)
    }

    // An expression and others in brackets, in parentheses.
    #[cycle(tree)]
    #[tactic(auto, unfolding(crate::specs::Reading::enclosed_at, crate::specs::Reading::pair_at, crate::specs::Reading::bind))]
    fn enclosed_pair(&mut self, depth: u8) -> Result<(Tree, Vec<Tree>), Stop>
        ensures { Reads (λ x. (plain_tree x.0, map plain_tree x.1.items)) result
            (tokens self.new.rest.now) (enclosed_at (pair_at (expression_at depth))
            (tokens self.old.rest.now)) }
    {
        self.mark(Mark::Open)?;
        let first = self.tree(depth)?;
        self.mark(Mark::Comma)?;
        let others = self.tree_row(depth)?;
        self.mark(Mark::Close)?;
        Ok((first, others))
    }

    // Expressions in brackets.
    #[cycle(tree)]
    #[tactic(auto, unfolding(crate::specs::Reading::row_at, crate::specs::Reading::bind))]
    fn tree_row(&mut self, depth: u8) -> Result<Vec<Tree>, Stop>
        ensures { Reads (λ v. map plain_tree v.items) result (tokens self.new.rest.now)
            (row_at (expression_at depth) (tokens self.old.rest.now)) }
    {
        self.mark(Mark::OpenList)?;
        let members = self.trees(depth)?;
        self.mark(Mark::CloseList)?;
        Ok(members)
    }

    // One expression or more, with commas between them.
    #[cycle(tree)]
    #[tactic(auto, unfolding(crate::specs::Reading::bind))]
    fn trees(&mut self, depth: u8) -> Result<Vec<Tree>, Stop>
        ensures { Reads (λ v. map plain_tree v.items) result (tokens self.new.rest.now)
            (members_at (expression_at depth) (tokens self.old.rest.now)) }
    {
        let count = self.rest.len();
        let mut members = Vec::new(self.alloc);
        for turn in 0..count {
            members.push(self.tree(depth)?)?;
            if !self.has(Mark::Comma) {
                return Ok(members);
            }
            self.pass();
        }
        Err(Stop::NoForm)
    }
}
