//! The table of plays: the next call, and what counts.
ghost use Rattle.std.specs.Prelude.{◌≡◌, Option, Some};
ghost use Rattle.sp_history.specs.declared.entry.Ending.{Ending as EndingType};
ghost use Rattle.sp_history.specs.declared.entry.Ending.TheVariants.{Won};
ghost use Rattle.sp_history.specs.declared.entry.Completion.TheVariants.{Received, Sent};
ghost use Rattle.sp_history.specs.declared.entry.RecordedMessage.{RecordedMessage as RecordedMessageType};
ghost use Rattle.sp_history.specs.Setting.{floods};
ghost use Rattle.cat_play.specs.Scripts as scripts;
ghost use Rattle.cat_rounds.specs.Lasting.{IsLast};

use sp_base::Role;

/// The result of the operation that was collected last.
#[derive(Clone, Copy, Debug, PartialEq, Eq)]
pub enum LastCollected {
    /// None was collected yet.
    Nothing,
    /// A receive got a message.
    Received,
    /// A send went out.
    Sent,
    /// A receive ended with its survey.
    SurveyOver,
    /// It ended without success, for another cause.
    Gone,
}

/// Returns whether the next call is a receive. The second flag says whether no survey is live.
pub(crate) fn receives_next(role: Role, has_data: bool, is_over: bool, last: LastCollected) -> bool
    ensures { (r : Option EndingType) → IsLast last r → result ≡ scripts.receives_next role has_data is_over r }
{
    match role {
        Role::Pull | Role::Sub => true,
        Role::Surveyor => !is_over,
        Role::Push | Role::Pub => false,
        Role::Pair0 | Role::Pair1 | Role::Bus => !has_data,
        Role::Req => last == LastCollected::Sent,
        Role::Rep | Role::Respondent => !(has_data && last == LastCollected::Received),
    }
}

/// Returns whether what was collected last counts. The second flag says whether no survey is live.
pub(crate) fn counts(role: Role, has_data: bool, is_over: bool, last: LastCollected) -> bool
    ensures { (r : Option EndingType) → IsLast last r → result ≡ scripts.counts_for role has_data is_over r }
{
    match last {
        LastCollected::Nothing | LastCollected::Gone => false,
        LastCollected::SurveyOver => role == Role::Surveyor,
        LastCollected::Received => counts_received(role, has_data, is_over),
        LastCollected::Sent => counts_sent(role, has_data, is_over),
    }
}

// Returns whether a message that was received counts. For a surveyor this is whether its survey is over.
fn counts_received(role: Role, has_data: bool, is_over: bool) -> bool
    ensures { (m : RecordedMessageType) → result ≡ scripts.counts_for role has_data is_over (Some (Won (Received m))) }
{
    match role {
        Role::Surveyor => is_over,
        Role::Req => true,
        Role::Pair0 | Role::Pair1 | Role::Pub | Role::Sub | Role::Push => !has_data,
        Role::Pull | Role::Rep | Role::Respondent | Role::Bus => !has_data,
    }
}

// Returns whether a send that was sent counts.
fn counts_sent(role: Role, has_data: bool, is_over: bool) -> bool
    ensures { result ≡ scripts.counts_for role has_data is_over (Some (Won Sent)) }
{
    match role {
        Role::Surveyor => is_over,
        Role::Req => false,
        Role::Pair0 | Role::Pair1 | Role::Pub | Role::Sub | Role::Push => has_data,
        Role::Pull | Role::Rep | Role::Respondent | Role::Bus => has_data,
    }
}

/// Returns whether a send goes to every pipe that is up, so that the first one waits until there is one.
pub(crate) fn floods(role: Role) -> bool
    ensures { result ≡ floods role }
{
    match role {
        Role::Pub | Role::Surveyor | Role::Bus => true,
        Role::Sub | Role::Push | Role::Pull | Role::Pair0 | Role::Pair1 => false,
        Role::Req | Role::Rep | Role::Respondent => false,
    }
}
