//! The laws of field maps.

ghost use Rattle.std.specs.Prelude.{◌≡◌, ℕ, List, Ok};
ghost use Rattle.lf_core.specs.declared.values.Value.{Value};
ghost use Rattle.lf_format.specs.declared.format.Piece.{Piece};
ghost use Rattle.lf_format.specs.declared.slot.Slot.{Slot};
ghost use Rattle.lf_format.specs.Shape.{Shape};
ghost use Rattle.lf_expression.specs.Exprs.{Expr};
ghost use Rattle.lf_map.specs.Letters.{parts_of};
ghost use Rattle.lf_map.specs.Filling.{Answer, Form, Reads, ParsesMap};
ghost use Rattle.lf_map.specs.Mapped.{Mapped, Makes};

/// A text has an answer between any two formats, and only one.
pub fn one_answer()
    ensures some { (source target : List Slot) (text : List ℕ) (form : Form) → (answer : Answer) × Reads source target text (parts_of text) form answer }
    ensures one { (source target : List Slot) (text : List ℕ) (parts : List (List ℕ)) (form : Form) (one other : Answer)
        → Reads source target text parts form one → Reads source target text parts form other → one ≡ other }
{
    lf_syntax::one_of_two();
}

/// Expressions make at most one thing of a record.
pub fn one_mapped()
    ensures { (target : List Piece) (exprs : List Expr) (rec : List Value) (one other : Mapped) → Makes target exprs rec one → Makes target exprs rec other → one ≡ other }
{}

/// The expressions of a map's text make something of each record.
pub fn some_mapped()
    ensures { (text : List ℕ) (source target : Shape) (exprs : List Expr) → ParsesMap text source target (Ok exprs) → (rec : List Value) → (answer : Mapped) × Makes target.pieces exprs rec answer }
{}
