//! What a text can be, as contracts of functions that do nothing.

ghost use Rattle.std.specs.Prelude.{◌≡◌};
ghost use Rattle.un_isa.specs.declared.table.Table.{Table};
ghost use Rattle.un_isa.specs.Hexagon.{HEXAGON};
ghost use Rattle.un_target.specs.declared.error.TableCause.{TableCause};
ghost use Rattle.un_target.specs.Examples.{hexagon_text, bad_text};
ghost use Rattle.un_target.specs.Tables.{IsTableText, IsBadTable};

/// A text is that of one table at most, has one cause at most, and not both.
pub fn one_table_or_cause(text: &[u8])
    ensures table { (t u : Table) → IsTableText text.now t → IsTableText text.now u → t ≡ u }
    ensures cause { (a b : TableCause) → IsBadTable text.now a → IsBadTable text.now b → a ≡ b }
    ensures apart { (t : Table) (a : TableCause) → IsTableText text.now t → IsBadTable text.now a → ⊥ }
{
    let _ = text;
}

/// There is a text of HEXAGON, and one of each cause.
pub fn each_comes()
    ensures table { IsTableText hexagon_text HEXAGON }
    ensures cause { (cause : TableCause) → IsBadTable (bad_text cause) cause }
{}
