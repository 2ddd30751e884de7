//! What the rule of the words gives.
ghost use Rattle.std.specs.Prelude.{◌≡◌, ℕ, ◌<◌, true};
ghost use Rattle.atomic_table.specs.Table.{State};
ghost use Rattle.aio_word.specs.declared.rule.ShownOperation.{ShownOperation};
ghost use Rattle.aio_word.specs.declared.rule.WordsView.{WordsView};
ghost use Rattle.aio_word.specs.Word.{is_decided};
ghost use Rattle.aio_word.specs.Views.{Stands};
ghost use Rattle.aio_word.specs.Rule.{Ruled};
ghost use Rattle.aio_word.specs.OneWinner.{OneWinner, IsKnownCaller};

/// Wherever the rule holds, each operation has at most one winner: the words, the core's ends and the callers' wins
/// agree as `OneWinner` says.
pub fn rule_gives_one_winner()
    ensures { (n : ℕ) (s : State (Unit {0}) WordsView) → Ruled n s → OneWinner n s.words s.views }
{}

/// What a step's `rule` clause says about a caller's own wins: each has an existing slot, was begun and has ended, by
/// this caller's number.
pub fn wins_are_the_callers()
    ensures { (slots : ℕ) (v : WordsView) → IsKnownCaller slots v → (e : ShownOperation) → Stands e v.wins → (e.slot < slots) × (0 < e.generation) × (is_decided e.phase ≡ true) × (e.by ≡ v.number) }
{}
