ghost use Rattle.std.specs.Prelude.{ℕ, Bool, List};
ghost use Rattle.std.specs.Ordering.{nat_cmp};
ghost use Rattle.std.specs.FinMap as map;
ghost use mathlib.Core.List.{IsPrefix};
ghost use Rattle.turn_cell.specs.Turns.{KeepsOthers};

/// A value that changes in turns. It has no functions: it says what of the value passes know.
pub trait Turned {
    /// What a history is made of. No value of it has to be made.
    type Entry;
    /// What stands under a number.
    type Part;

    ghost history: { Self → List Self.Entry };

    ghost parts: { Self → map.FinMap nat_cmp Self.Part };
}

/// What is done in one turn. It only lengthens the history, and may change what stands under the numbers that
/// it names or put something under a number that had nothing.
pub trait Act<S: Turned> {
    /// What it answers.
    type Out;

    // the numbers under which it may change something
    ghost changes: { Self → ℕ → Bool };
    // the values that it may be asked of
    ghost fits: { Self → S → Type 0 };
    // of the value before and after it, and its answer
    ghost does: { Self → S → S → Self.Out → Type 0 };

    fn act(self, state: &mut S) -> Self::Out
        requires { fits self state.old }
        ensures grows { IsPrefix (S.history state.old) (S.history state.new) }
        ensures others { KeepsOthers (changes self) (S.parts state.old) (S.parts state.new) }
        ensures does { does self state.old state.new result };
}
