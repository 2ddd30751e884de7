//! Reads example histories, and compares the verdict on each with the one that it states.
//!
//! A row is a line `= NAME ROLE OPTION.. : VERDICT` and a line for each turn, up to an empty line, the next row or the
//! end; a line that begins with `#` is a comment. A turn is `CALLER: ENTRY, ENTRY ..`, where the caller's number may be
//! left out for 1. `text` has the words of the entries. It prints the rows whose verdict is different, and the number
//! of rows.
#![tactic(auto)]

mod text;

use anyhow::Result;
use history_judge::judgement::Judgement;
use history_judge::turns::judge;
use sp_history::entry::Entry;
use sp_history::setting::Setting;
use std::alloc::Global;
use std::collections::LinkedList;
use text::{setting_of, turn_of};
use turn_lock::Turn;

/// The number of rows, the number with each verdict, and the number whose verdict was different from the stated one.
#[derive(Clone, Copy)]
struct RowTally {
    rows: u32,
    right: u32,
    illegal: u32,
    unsettled: u32,
    others: u32,
}

/// The row that is being read.
#[derive(Drop)]
struct Row {
    title: String,
    said: String,
    setting: Option<Setting>,
    turns: LinkedList<Turn<Entry>>,
}

fn begin_row(alloc: Global, line: &str) -> Result<Row> {
    let (title, said) = line.split_once(" : ").unwrap_or((line, "?"));
    Ok(Row {
        title: String::from_str(alloc, title)?,
        said: String::from_str(alloc, said)?,
        setting: setting_of(alloc, title).ok(),
        turns: LinkedList::new(alloc),
    })
}

fn counted(tally: RowTally, verdict: Judgement) -> RowTally {
    match verdict {
        Judgement::Right => RowTally {
            right: tally.right.saturating_add(1),
            ..tally
        },
        Judgement::Illegal(_) => RowTally {
            illegal: tally.illegal.saturating_add(1),
            ..tally
        },
        Judgement::Unsettled(_) => RowTally {
            unsettled: tally.unsettled.saturating_add(1),
            ..tally
        },
    }
}

fn another(rt: &impl Print, title: &str, found: &str, tally: RowTally) -> Result<RowTally> {
    println!(rt; "{title} : {found}")?;
    Ok(RowTally {
        others: tally.others.saturating_add(1),
        ..tally
    })
}

/// Judges the row, if there is one.
fn end_row<R: Print + AllocGlobal>(rt: &R, row: Option<Row>, tally: RowTally) -> Result<RowTally> {
    let Some(
        Row {
            title,
            said,
            setting,
            turns,
        },
    ) = row
    else {
        return Ok(tally);
    };
    let Some(z) = setting else {
        return another(rt, title.as_str(), "no such setting", tally);
    };
    let Ok(verdict) = judge(rt.alloc(), z, turns) else {
        return another(rt, title.as_str(), "no memory", tally);
    };
    let tally = counted(tally, verdict);
    let found = format!(in rt.alloc(); "{verdict:?}")?;
    if found.as_str() == said.as_str() {
        Ok(tally)
    } else {
        another(rt, title.as_str(), found.as_str(), tally)
    }
}

/// Adds a turn to the row. A line outside a row belongs to a row without a setting.
fn add_turn(alloc: Global, row: Option<Row>, line: &str) -> Result<Row> {
    let mut row = match row {
        Some(row) => row,
        None => begin_row(alloc, line)?,
    };
    match turn_of(alloc, line) {
        Ok(turn) => row.turns.push_back(turn)?,
        Err(_) => row.setting = None,
    }
    Ok(row)
}

fn main(rt: HostRuntime) -> Result<()> {
    let mut tally = RowTally {
        rows: 0,
        right: 0,
        illegal: 0,
        unsettled: 0,
        others: 0,
    };
    let mut row = None;
    for line in rt.lines(rt.alloc()) {
        let line = line?;
        let line = line.as_str();
        if line.starts_with("= ") {
            tally = end_row(&rt, row, tally)?;
            tally.rows = tally.rows.saturating_add(1);
            row = Some(begin_row(rt.alloc(), line)?);
        } else if line.is_empty() {
            tally = end_row(&rt, row, tally)?;
            row = None;
        } else if !line.starts_with("#") {
            row = Some(add_turn(rt.alloc(), row, line)?);
        }
    }
    tally = end_row(&rt, row, tally)?;
    println!(rt;
        "{} rows: {} right, {} illegal, {} unsettled",
        tally.rows, tally.right, tally.illegal, tally.unsettled
    )?;
    println!(rt; "{} otherwise than said", tally.others)?;
    Ok(())
}
