//! Laws of plays.
ghost use Rattle.sp_history.specs.Legal.{AreAllowed};
ghost use Rattle.sp_history.specs.Once.{end_count};
ghost use Rattle.sp_history.specs.declared.entry.Ending.{Ending};
ghost use Rattle.sp_base.specs.declared.OpName.{OpName};
ghost use Rattle.std.specs.Prelude.{◌≡◌, ◌&&◌, ℕ, is_some, List, [], ◌∷◌, ◌++◌, true, false, reverse, ◌≤◌, Some};
ghost use Rattle.std.specs.List.{list_any, Contains};
ghost use Rattle.turn_lock.specs.declared.turn.Turn.{Turn};
ghost use Rattle.sp_history.specs.declared.entry.Entry.{Entry};
ghost use Rattle.sp_history.specs.declared.entry.Entry.TheVariants.{Close, End};
ghost use Rattle.sp_history.specs.declared.entry.Totals.{Totals};
ghost use Rattle.sp_history.specs.declared.setting.Setting.{Setting};
ghost use Rattle.sp_history.specs.Changes.{none_of};
ghost use Rattle.sp_history.specs.Requests.{live_on};
ghost use Rattle.sp_history.specs.Setting.{is_req, has_requests};
ghost use Rattle.sp_history.specs.Past.{onto, past_of, is_closed};
ghost use Rattle.cat_play.specs.declared.status.Status.{Status};
ghost use Rattle.cat_text.specs.declared.plan.CatPlan.{CatPlan};
ghost use Rattle.cat_play.specs.Running.{World, EndedFor, UnopenedFor, IsSpared, ComesToEnd};
ghost use Rattle.cat_play.specs.Plans.{Play};
ghost use Rattle.sp_history.specs.Found.{AreOrdered, ticks, before_last_tick};
ghost use Rattle.cat_play.specs.Playing.{PlaysSoFar, Plays, past_under, is_left, is_send, waits_for_pipe, was_swept};
ghost use Rattle.sp_ends.specs.Entries.{is_tick};
ghost use Rattle.cat_play.specs.Rules.{broken};
ghost use Rattle.cat_play.specs.Scripts.{open_part, has_ticked, under_way, last_result, counted, texts, over};
ghost use Rattle.cat_play.specs.Spending.{AreTries};
ghost use Rattle.sp_ends.specs.LinkCounts.{spaced_from};
ghost use Rattle.cat_play.specs.Steps.{until_close, GoesOn, MayPlay, HasOne};
ghost use Rattle.sp_ends.specs.Entries.{moves_calls};

/// A turn that continues a play makes a play, and the turns after the close add nothing to what is read of it.
pub fn a_turn_goes_on()
    ensures goes_on { (z : Setting) (play : Play) (h : List (Turn Entry)) (t : Turn Entry) → is_closed (past_of h) ≡ false → PlaysSoFar z play h → GoesOn z play h t → PlaysSoFar z play (h ++ t ∷ []) }
    ensures open_ { (entries past : List Entry) → is_closed past ≡ false → open_part (onto entries past) ≡ onto (until_close entries) past }
    ensures closed { (entries past : List Entry) → is_closed past ≡ true → open_part (onto entries past) ≡ open_part past }
    ensures under { (h : List (Turn Entry)) → past_under (reverse h) ≡ past_of h }
{}

/// Entries that no rule concerns leave a play unchanged.
pub fn a_play_stays()
    ensures under_way { (entries past : List Entry) → none_of moves_calls entries ≡ true → under_way (onto entries past) ≡ under_way past }
    ensures last_result { (entries past : List Entry) → none_of moves_calls entries ≡ true → last_result (onto entries past) ≡ last_result past }
    ensures counted { (z : Setting) (play : Play) (entries past : List Entry) → is_closed past ≡ false → none_of moves_calls entries ≡ true → counted z play (onto entries past) ≡ counted z play past }
    ensures texts { (play : Play) (entries past : List Entry) → is_closed past ≡ false → none_of moves_calls entries ≡ true → texts play (onto entries past) ≡ texts play past }
    ensures over { (z : Setting) (play : Play) (entries past : List Entry) → is_closed past ≡ false → none_of moves_calls entries ≡ true → over z play (onto entries past) ≡ over z play past }
    ensures is_left { (entries past : List Entry) → none_of moves_calls entries ≡ true → is_left (onto entries past) ≡ is_left past }
{}

/// A turn continues a play where no rule concerns its entries, or only one of them, and that one may come.
pub fn turns_that_go_on()
    ensures silent { (z : Setting) (play : Play) (h : List (Turn Entry)) (t : Turn Entry) → none_of moves_calls t.entries ≡ true → GoesOn z play h t }
    ensures one { (z : Setting) (play : Play) (h : List (Turn Entry)) (t : Turn Entry) (e : Entry) (early late : List Entry) → HasOne e t early late → MayPlay z play (onto early (past_of h)) e → (is_send e && waits_for_pipe play (past_of h)) ≡ false → (is_tick e ≡ true → has_ticked (past_of h) ≡ true → was_swept z (reverse h) ≡ true) → GoesOn z play h t }
{}

/// The turn of the close continues a play, where no rule concerns the entries before the close. Turns after it keep it
/// a play, where they have no tick and begin no send.
pub fn a_play_closes()
    ensures closing { (z : Setting) (play : Play) (h : List (Turn Entry)) (t : Turn Entry) (entries : List Entry) (totals : Totals) → t.entries ≡ entries ++ Close totals ∷ [] → none_of moves_calls entries ≡ true → GoesOn z play h t }
    ensures closed { (z : Setting) (play : Play) (h : List (Turn Entry)) (t : Turn Entry) → is_closed (past_of h) ≡ true → PlaysSoFar z play h → list_any is_tick t.entries ≡ false → list_any is_send t.entries ≡ false → PlaysSoFar z play (h ++ t ∷ []) }
{}

/// A record breaks no rule exactly where it is a play.
pub fn broken_decides()
    ensures means { (z : Setting) (play : Play) (h : List (Turn Entry)) → broken z play h ≡ [] → Plays z play h }
    ensures enough { (z : Setting) (play : Play) (h : List (Turn Entry)) → Plays z play h → broken z play h ≡ [] }
{}

/// For ticks in order, a longest list of tries is the one that takes each as soon as it may.
pub fn tries_are_spaced()
    ensures { (past : List Entry) → AreOrdered (ticks (before_last_tick past)) → AreTries past (spaced_from 0 (ticks (before_last_tick past))) }
{}

/// A run of a plan without a drill that nothing stops comes to its end, or is out of memory: this follows only from the
/// causes of the statuses.
pub fn a_run_completes()
    ensures opened { (s : Status) (z : Setting) (plan : CatPlan) (play : Play) (past : List Entry) (old new : World) → EndedFor s z plan play past old new → IsSpared plan old new → ComesToEnd s }
    ensures unopened { (s : Status) (plan : CatPlan) (old new : World) → UnopenedFor s old new → IsSpared plan old new → ComesToEnd s }
{}
