// What the definitions imply.
ghost use Rattle.std.specs.Prelude.{◌≡◌, ℕ, List};
ghost use Rattle.rule_read.specs.Tokens.{Token};
ghost use Rattle.rule_forms.specs.Forms.{PlainForm, PlainStatement};
ghost use Rattle.rule_forms.specs.Sound.{IsSoundForm};
ghost use Rattle.rule_read.specs.Grammar.{SpellsForm, Spells};
ghost use Rattle.rule_read.specs.Whole.{Reading, reading, Means};

/// A statement has one form.
#[tactic(auto, using(crate::proofs::Formed::one_form))]
pub fn one_form()
    ensures { (ts : List Token) (f g : PlainForm) → SpellsForm ts f → IsSoundForm f
        → SpellsForm ts g → IsSoundForm g → f ≡ g }
{}

/// A text spells one list of statements.
#[tactic(auto, using(crate::proofs::Spelled::one_reading))]
pub fn one_reading()
    ensures { (text : List ℕ) (xs ys : List PlainStatement) → Spells text xs → Spells text ys
        → xs ≡ ys }
{}

/// What a text reads as is what the grammar says of it.
#[tactic(auto, using(crate::proofs::Meant::reading_means))]
pub fn reading_means()
    ensures { (text : List ℕ) → Means text (reading text) }
{}

/// What the grammar says of a text is what it reads as, so that it says one thing of each text.
#[tactic(auto, using(crate::proofs::Meant::meaning_is_read))]
pub fn meaning_is_read()
    ensures { (text : List ℕ) (read : Reading) → Means text read → reading text ≡ read }
{}
