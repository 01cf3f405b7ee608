// A notation of either kind, as the command finds it in its input.
ghost use Rattle.std.specs.Prelude.{◌≡◌};
ghost use Rattle.std.proofs.Math.Path.{refl};
ghost use Rattle.plan.specs.AnyNotations.{any_table};
ghost use Rattle.notation.specs.Rows.{ladder_rows, ladder_table};
ghost use Rattle.notation.specs.Views.{sealed_table};
ghost use Rattle.notation.specs.Laws.{lawful_in};
ghost use Rattle.notation.specs.RowsLemmas.{rows_lawful};
ghost use Rattle.plan.specs.declared.any_notation.AnyNotation.TheVariants.{Ladder, Declared};

use notation::{Ladder, Notation, Operator, Position, SealedList};

// The ladder, or a declared list. An enum, and no `dyn`: a function may not make one and hand it out.
#[derive(Drop)]
pub enum AnyNotation {
    Ladder(Ladder),
    Declared(SealedList),
}

impl Notation for AnyNotation {
    ghost table = { any_table };

    ghost lawful = { unfold ladder_table in
        elim [
          | Ladder l ↦ rows_lawful ladder_rows refl
          | Declared l ↦ lawful_in (sealed_table l) l.list.lawful
        ] };

    fn operator(&self, function: u8) -> Option<Operator<'_>> {
        match self {
            AnyNotation::Ladder(ladder) => ladder.operator(function),
            AnyNotation::Declared(list) => list.operator(function),
        }
    }

    // Inlined, as a reader asks for a position that stands in its code.
    #[inline]
    fn listed(&self, position: Position, spelling: &[u8]) -> Option<u8> {
        match self {
            AnyNotation::Ladder(ladder) => ladder.listed(position, spelling),
            AnyNotation::Declared(list) => list.listed(position, spelling),
        }
    }
}
