//! Words of operations: for each slot one number, on which completion, cancel, timeout and close race. One exchange
//! decides.
//!
//! A word shows the slot's operation: its generation, its phase, and who ended it. It is pending from `begin` until one
//! exchange decides it: `decide` by the core (the one owner of the slots), or `cancel` or `expire` by a caller. An
//! exchange that finds the operation decided, or another generation in the slot, changes nothing. So an operation has
//! one winner, and a late or repeated cancel does no harm: a name whose generation has passed is `Stale`, also where
//! its slot now has another operation, or doesn't exist.
//!
//! The core owns the slots. It begins operations, names them, and decides them; it reuses a slot only once it has seen
//! that the slot's last operation has ended. At the last generation, 2^40 - 1, a slot is worn and stays unused. A
//! caller owns only its seat: the words name it by its number, and `wins` has what its own exchanges won. At the end
//! the core joins the callers' seats, and then its ends and their wins agree (`Words::join`).
//!
//! What a seat knows is ghost: it is a `WordsView`, which grows at the seat's own steps. `Rule` in specs/ says what
//! holds between any two steps of any threads, and `OneWinner` says what follows (`rule_gives_one_winner`); each step
//! is proved to keep the rule for every interleaving. Every step is sequentially consistent. Nothing waits, and only
//! `words` and `Words::share` take memory.
#![tactic(auto)]

mod calls;
mod law;
mod make;
mod phase;
mod results;
mod rule;
mod seats;
mod word;

pub use calls::Words;
pub use law::{rule_gives_one_winner, wins_are_the_callers};
pub use make::words;
pub use phase::Phase;
pub use results::{Decided, Look, Polled, Raced, Worn};
pub use rule::{JoinedWins, SeatRole, ShownOperation, WordsRule, WordsView};
pub use seats::{CallSeat, CoreSeat, SeatList};
