//! Laws of histories: what is in one is found there, the operations that are open, and what no longer happens.
//!
//! Each function has an empty body, and is there for its contract.
ghost use Rattle.std.specs.Prelude.{◌≡◌, ◌↔◌, ◌^◌, ◌<◌, ◌≤◌, length, ℕ, true, false, List, [], ◌∷◌, ◌++◌, Option, Some, is_some};
ghost use Rattle.std.specs.List.{Contains, list_any, list_all};
ghost use Rattle.turn_lock.specs.declared.turn.Turn.{Turn};
ghost use Rattle.turn_lock.specs.History.{turns_of};
ghost use Rattle.sp_history.specs.declared.entry.RecordedAct.{RecordedAct};
ghost use Rattle.sp_history.specs.declared.entry.Ending.{Ending};
ghost use Rattle.sp_history.specs.declared.entry.Entry.{Entry};
ghost use Rattle.sp_history.specs.declared.entry.Entry.TheVariants.{Begin, End};
ghost use Rattle.sp_history.specs.declared.setting.Setting.{Setting};
ghost use Rattle.sp_history.specs.Lists.{has};
ghost use Rattle.sp_history.specs.Setting.{is_req, has_requests};
ghost use Rattle.sp_history.specs.Changes.{none_of};
ghost use Rattle.sp_history.specs.Past.{onto, past_of, past_from, up, ups, pend, pending, caller_of, begins, now, opened, ctxs};
ghost use Rattle.sp_history.specs.Once.{begin_count, end_count};
ghost use Rattle.sp_history.specs.Requests.{has_id, next_id, is_orphan, requests, live_on};
ghost use Rattle.sp_history.specs.declared.parts.Requests.{Requests};
ghost use Rattle.sp_history.specs.Given.{live_ctxs};
ghost use Rattle.sp_history.specs.Settled.{is_dry};
ghost use Rattle.sp_history.specs.Legal.{sending, LegalTurn, LegalFrom, Legal, AreAllowed};
ghost use Rattle.sp_history.specs.Found.{is_out, is_begin, begins_send, collects, moves_surveys, act_of, end_of, IsOpenOf, is_taken, has_no_slot, ticks, last_tick, before_last_tick, AreOrdered, SameOfPipe, is_out_by};
ghost use Rattle.sp_base.specs.declared.OpName.{OpName};

// ---- Operations

/// An operation is open in the turns of the caller that began it exactly where it is open in the whole history.
pub fn own_turns_tell_what_is_open()
    ensures { (z : Setting) (k : ℕ) (history : List (Turn Entry)) (op : OpName) → Legal z history → IsOpenOf k op (past_of (turns_of k history)) ↔ IsOpenOf k op (past_of history) }
{}

/// A turn that begins an operation, and doesn't collect it, leaves it open; and so does a later turn that doesn't
/// collect it.
pub fn a_turn_leaves_it_open()
    ensures begun { (z : Setting) (history : List (Turn Entry)) (t : Turn Entry) (early late : List Entry) (op : OpName) (k c : ℕ) (act : RecordedAct) (d : Option ℕ) → Legal z (history ++ t ∷ []) → t.entries ≡ early ++ Begin op k c act d ∷ late → none_of (collects op) late ≡ true → IsOpenOf k op (past_of (history ++ t ∷ [])) }
    ensures stays { (z : Setting) (history : List (Turn Entry)) (t : Turn Entry) (k : ℕ) (op : OpName) → Legal z (history ++ t ∷ []) → IsOpenOf k op (past_of history) → none_of (collects op) t.entries ≡ true → IsOpenOf k op (past_of (history ++ t ∷ [])) }
{}

/// If something was begun at a slot, then the operation with its last generation was begun.
pub fn the_last_of_a_slot_was_begun()
    ensures { (z : Setting) (history : List (Turn Entry)) (slot : ℕ) → Legal z history → 0 < begins (past_of history) slot → 1 ≤ begin_count (past_of history) (record { slot = slot; generation = begins (past_of history) slot }) }
{}

/// A begin is refused for want of a free slot exactly where each slot is taken.
pub fn slots_are_taken()
    ensures means { (z : Setting) (past : List Entry) → has_no_slot z past ≡ true → (slot : ℕ) → slot < z.slots → is_taken past slot ≡ true }
    ensures enough { (z : Setting) (past : List Entry) → ((slot : ℕ) → slot < z.slots → is_taken past slot ≡ true) → has_no_slot z past ≡ true }
{}

/// A begin and an end that are in a past are found there, where the operation is begun and ends at most once.
pub fn what_stands_is_found()
    ensures begins { (past : List Entry) (op : OpName) (k c : ℕ) (act : RecordedAct) (d : Option ℕ) → Contains past (Begin op k c act d) → begin_count past op ≤ 1 → (act_of past op ≡ Some act) × (caller_of past op ≡ Some k) }
    ensures ends { (past : List Entry) (op : OpName) (ending : Ending) → Contains past (End op ending) → end_count past op ≤ 1 → end_of past op ≡ Some ending }
{}

/// Ticks are in order, and the last one is the time.
pub fn time_goes_on()
    ensures now { (z : Setting) (past : List Entry) → AreAllowed z past → now past ≡ last_tick past }
    ensures ticks { (z : Setting) (past : List Entry) → AreAllowed z past → AreOrdered (ticks past) }
    ensures earlier { (z : Setting) (past : List Entry) → AreAllowed z past → AreOrdered (ticks (before_last_tick past)) }
{}

// ---- What no longer happens

/// A pipe that came up and is down stays down, with no further frame, Out, Full, Quiet or Stall, no other name and no
/// other cause.
pub fn a_pipe_that_is_down_is_silent()
    ensures silent { (z : Setting) (past : List Entry) (turns : List (Turn Entry)) (p : ℕ) → LegalFrom z past turns → p ≤ ups past → has (up past) p ≡ false → SameOfPipe p past (past_from past turns) }
    ensures down { (z : Setting) (past : List Entry) (turns : List (Turn Entry)) (p : ℕ) → LegalFrom z past turns → p ≤ ups past → has (up past) p ≡ false → has (up (past_from past turns)) p ≡ false }
{}

/// A turn puts nothing on a pipe if no send is pending and no request is live when it begins, and if it begins nothing.
pub fn nothing_goes_out_by_itself()
    ensures { (z : Setting) (past : List Entry) (t : Turn Entry) → LegalTurn z past t → sending (pend past) ≡ [] → (requests z past).live ≡ [] → none_of is_begin t.entries ≡ true → none_of is_out t.entries ≡ true }
{}

/// For a cooked surveyor: whether a survey is live on a context changes only with the begin of a send, a tick, a
/// context that is shut and the close; and where none is live, none is until a send is begun.
pub fn a_survey_stays()
    ensures gone { (z : Setting) → has_requests z ≡ true → is_req z.role ≡ false → (c : ℕ) (entries past : List Entry) → none_of begins_send entries ≡ true → is_some (live_on z past c) ≡ false → is_some (live_on z (onto entries past) c) ≡ false }
    ensures stays { (z : Setting) → has_requests z ≡ true → is_req z.role ≡ false → (c : ℕ) (entries past : List Entry) → none_of moves_surveys entries ≡ true → is_some (live_on z (onto entries past) c) ≡ is_some (live_on z past c) }
{}

// ---- Requests

/// An operation whose request has ended is pending.
pub fn an_orphan_is_pending()
    ensures { (z : Setting) (past : List Entry) (op : OpName) → is_orphan (requests z past) op ≡ true → is_some (pending past op) ≡ true }
{}

/// A live request is on an open context, and its last Out is no later than the last tick.
pub fn live_requests_stand()
    ensures open_ { (z : Setting) (history : List (Turn Entry)) (c : ℕ) → Legal z history → has (live_ctxs z (past_of history)) c ≡ true → has (ctxs (past_of history)) c ≡ true }
    ensures outs { (z : Setting) (past : List Entry) → list_all (is_out_by (now past)) (requests z past).live ≡ true }
{}

/// Where fewer than 2^31 requests are live, the next one gets an id that none of them has.
pub fn the_next_id_is_new()
    ensures { (z : Setting) (rs : Requests) → length rs.live < 2 ^ 31 → list_any (has_id (next_id z rs)) rs.live ≡ false }
{}

/// An open context was opened, and one that is opened next isn't dry.
pub fn the_next_context_is_not_dry()
    ensures opened { (z : Setting) (past : List Entry) (c : ℕ) → AreAllowed z past → has (ctxs past) c ≡ true → c ≤ opened past }
    ensures dry { (z : Setting) (past : List Entry) (c : ℕ) → AreAllowed z past → opened past < c → is_dry past c ≡ false }
{}
