//! What machines share that send to all their pipes (pub, bus, surveyor): how many copies of a send they keep, and that
//! no other send is pending then.
//!
//! A send that goes to many pipes has a copy for each pipe that is up when it begins, so that going out takes no
//! memory. While it goes out there are fewer of them, which is allowed while an Out waits for its End; no other entry
//! can come there.
//!
//! Who owns what: the machine owns the copies and the pending send; here are a function that makes them (`copies_of`,
//! for pub and bus; those of a surveyor keep their header) and laws on how many there are (`copies`). The contents of a
//! copy are stated by each machine.
//!
//! To read: `specs/Copies` first (`HasCopies`, `HasFlood`); then `proofs/Flooding`, which carries `HasFlood` from entry
//! to entry and to the next turn, and what it uses: `Sending`, `Copying`, `Counting`.
ghost use Rattle.std.specs.Prelude.{◌≡◌, ◌≤◌, ℕ, Option, List, ◌∷◌, true, false, length, IfOk, IsOk};
ghost use Rattle.sp_base.specs.declared.OpName.{OpName};
ghost use Rattle.sp_history.specs.declared.entry.RecordedAct.{RecordedAct};
ghost use Rattle.sp_history.specs.declared.entry.Why.{Why};
ghost use Rattle.sp_history.specs.declared.entry.Entry.{Entry};
ghost use Rattle.sp_history.specs.declared.entry.Entry.TheVariants.{Down, Out, Full, Begin};
ghost use Rattle.sp_history.specs.declared.setting.Setting.{Setting};
ghost use Rattle.sp_history.specs.Setting.{floods};
ghost use Rattle.sp_history.specs.Past.{up};
ghost use Rattle.sp_history.specs.Legal.{Calm, is_part_of_send};
ghost use Rattle.sp_history.specs.Moments.{Moment, Lawful, past, also};
ghost use Rattle.proto_shared.specs.Copies.{HasCopies, AreCopies};

use sp_base::NoMemory;
use sp_msg::Message;
use std::alloc::Global;

/// As many copies of the message as `most` says, without its header. Where that is 0 it takes no memory, however long
/// the message is.
pub fn copies_of(alloc: Global, m: &Message, most: usize) -> Result<Vec<Message>, NoMemory>
    ensures copies { IfOk result (λ v. AreCopies m.now.body v.items) }
    ensures all { IfOk result (λ v. length v.items ≡ most) }
    ensures none { most ≡ 0 → IsOk result }
{
    let mut copies = Vec::with_capacity(alloc, most)?;
    for _ in 0..most {
        let mut copy = m.copy()?;
        copy.header_clear();
        copies.push(copy)?;
    }
    Ok(copies)
}

/// There are as many copies as pipes are up, or an Out waits: what each entry does to that.
pub fn copies()
    ensures begun { (z : Setting) (before : List Entry) (op : OpName) (k c : ℕ) (act : RecordedAct) (deadline : Option ℕ) → HasCopies z (Begin op k c act deadline ∷ before) (length (up before)) }
    ensures went_out { (z : Setting) (before : List Entry) (p : ℕ) (b : List ℕ) (n : ℕ) → floods z.role ≡ true → HasCopies z (Out p b ∷ before) n }
    ensures found_full { (z : Setting) (before : List Entry) (p n : ℕ) → floods z.role ≡ true → HasCopies z before n → HasCopies z (Full p ∷ before) n }
    ensures went_down { (z : Setting) (before : List Entry) (p : ℕ) (why : Why) (n : ℕ) → floods z.role ≡ true → HasCopies z before n → HasCopies z (Down p why ∷ before) n }
    ensures others { (t : Moment) (e : Entry) (n : ℕ) → Lawful (also t e) → is_part_of_send t.z e ≡ false → up (e ∷ past t) ≡ up (past t) → HasCopies t.z (past t) n → HasCopies t.z (e ∷ past t) n }
    ensures calm { (z : Setting) (before : List Entry) (n : ℕ) → Calm z before → HasCopies z before n → length (up before) ≤ n }
{}
