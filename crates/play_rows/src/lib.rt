//! Example records of a run, each with its verdict: plays of each role, what is written on the links, what the rounds
//! were spent on, and whole runs. `MoreRows` has cases that a misreading of the rules would decide otherwise.
//!
//! No crate depends on this one, so a new row makes nothing else be proved again.
#![tactic(auto)]

ghost use Rattle.play_rows.specs.PullRows.{PullRows};
ghost use Rattle.play_rows.specs.PushRows.{PushRows};
ghost use Rattle.play_rows.specs.PubRows.{PubRows};
ghost use Rattle.play_rows.specs.SubRows.{SubRows};
ghost use Rattle.play_rows.specs.Pair0Rows.{Pair0Rows};
ghost use Rattle.play_rows.specs.BusRows.{BusRows};
ghost use Rattle.play_rows.specs.ReqRows.{ReqRows};
ghost use Rattle.play_rows.specs.RepRows.{RepRows};
ghost use Rattle.play_rows.specs.SurveyorRows.{SurveyorRows};
ghost use Rattle.play_rows.specs.RespondentRows.{RespondentRows};
ghost use Rattle.play_rows.specs.PlaceRows.{PlaceRows};
ghost use Rattle.play_rows.specs.SpentRows.{SpentRows};
ghost use Rattle.play_rows.specs.WholeRows.{WholeRows};
ghost use Rattle.play_rows.specs.MoreRows.{MoreRows};

/// Example plays of pull, each with its verdict.
pub fn pull_rows()
    ensures { PullRows }
{}

/// Example plays of push, each with its verdict.
pub fn push_rows()
    ensures { PushRows }
{}

/// Example plays of pub, each with its verdict.
pub fn pub_rows()
    ensures { PubRows }
{}

/// Example plays of sub, each with its verdict.
pub fn sub_rows()
    ensures { SubRows }
{}

/// Example plays of pair0, each with its verdict.
pub fn pair0_rows()
    ensures { Pair0Rows }
{}

/// Example plays of bus, each with its verdict.
pub fn bus_rows()
    ensures { BusRows }
{}

/// Example plays of req, each with its verdict.
pub fn req_rows()
    ensures { ReqRows }
{}

/// Example plays of rep, each with its verdict.
pub fn rep_rows()
    ensures { RepRows }
{}

/// Example plays of surveyor, each with its verdict.
pub fn surveyor_rows()
    ensures { SurveyorRows }
{}

/// Example plays of respondent, each with its verdict.
pub fn respondent_rows()
    ensures { RespondentRows }
{}

/// Example records of links and their places, each with its verdict.
pub fn place_rows()
    ensures { PlaceRows }
{}

/// Example records of what rounds were spent on, each with its verdict.
pub fn spent_rows()
    ensures { SpentRows }
{}

/// Example records of whole runs, each with its verdict.
pub fn whole_rows()
    ensures { WholeRows }
{}

/// Example plays on topics, pipes, slots and names, each with its verdict.
pub fn more_rows()
    ensures { MoreRows }
{}
